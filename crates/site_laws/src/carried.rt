// Whole runs over any carrier are the promise's runs.
ghost use Rattle.site_laws.specs.Oracle.{AnsweredBySome};

use runs::notes::Book;
use servers::carrier::Carrier;

// Whatever a carrier brings, there are servers with which the promise's run is the run that was had: so what the promise says
// of every two runs holds of runs over pipes too.
pub fn answered_by_some<C: Carrier, B: Book>()
    ensures { AnsweredBySome C.Carrier.carries B.Book.notes }
{}
