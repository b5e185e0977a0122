// What is asked of a server, and what is let out, by value.
use bounded::site::SiteNumber;
use bounded::text::Text;

// A request: to which site's server, and from which site's page (from none where a page is opened). The server's token
// goes with it.
#[derive(Clone, Copy)]
pub struct Need {
    pub site: SiteNumber,
    pub from: Option<SiteNumber>,
    pub path: Text<255>,
    pub body: Text<1024>,
}

// What a site lets out.
#[derive(Clone, Copy, PartialEq)]
pub enum What {
    Asked { path: Text<255>, body: Text<1024> },
    Said { window: u32, what: Text<1024> },
    Opened { path: Text<255> },
    Let { code: u16, body: Text<4096> },
}

// By which site, and to which.
#[derive(Clone, Copy, PartialEq)]
pub struct Out {
    pub from: SiteNumber,
    pub to: SiteNumber,
    pub what: What,
}
