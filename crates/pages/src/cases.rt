// Small worlds, worked out.
ghost use Rattle.pages.specs.Cases.{GuestUnseen, TableHolds};

// The table of cases holds, row by row.
pub fn table_holds()
    ensures { TableHolds }
{}

// Whether a guest is known at a site's server is not to be seen by another site's page that asks it: an instance of the promise.
pub fn guest_unseen()
    ensures { GuestUnseen }
{}
