// Two sites.
use addresses::Site;
use std::process::Abort;
use storage::table::Table;

pub(crate) const BANK: Site<'static> = Site {
    host: b"bank.example",
    port: 443,
};

pub(crate) const SHOP: Site<'static> = Site {
    host: b"shop.example",
    port: 8443,
};

// The bank is site 0, and the shop is site 1.
pub(crate) fn table(rt: &impl Abort) -> Table {
    let mut table = Table::new();
    assert!(rt; table.add(BANK).is_some());
    assert!(rt; table.add(SHOP).is_some());
    table
}
