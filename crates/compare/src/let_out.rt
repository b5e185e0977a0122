// What is let out in an event, by one site or by all others, compared between two books.
ghost use Rattle.std.specs.Prelude.{◌≡◌, Decides, Bool};
ghost use Rattle.std.specs.Fn.{FnReturnsAt};
ghost use Rattle.std.specs.Option.{option_map};
ghost use Rattle.bounded.specs.Numbers.{number_of};
ghost use Rattle.book.specs.Records.{entry_of};
ghost use Rattle.browser.specs.Values.{out_of, outs_of};
ghost use Rattle.pages.specs.Outs.{Out as OutThere, reaches, by_others, keep_only, let_out};
ghost use Rattle.pages.specs.Promise.{only};

use crate::outs::same_lists;
use book::record::Record;
use bounded::site::SiteNumber;
use browser::values::{Out, What};

// Does it go from the site to others? A window that the site opens does, whose it may be.
fn reaches(out: &Out, site: SiteNumber) -> bool
    ensures { result ≡ reaches (only (number_of site)) (out_of out.now) }
{
    out.from == site && (matches!(&out.what, What::Opened { path: _ }) || out.to != site)
}

fn by_others(out: &Out, but: SiteNumber) -> bool
    ensures { result ≡ by_others (only (number_of but)) (out_of out.now) }
{
    out.from != but
}

// What counts, of at most one thing.
fn pick<'a, F: Fn(&Out) -> bool>(out: &'a Option<Out>, counts: &F) -> Option<&'a Out>
    requires { F.IsAlwaysCallable counts.now }
    ensures { (f : OutThere → Bool) → ((x : _) (r : Bool) → FnReturnsAt F.Fn counts.now x r → r ≡ f (out_of x)) → outs_of (option_map (λ x. x.now) result) ≡ keep_only f (outs_of out.now) }
{
    let found = out.as_ref()?;
    counts(found).then_some(found)
}

// Is the same let out, of what counts?
fn same_outs<F: Fn(&Out) -> bool>(one: &Record, two: &Record, counts: F) -> bool
    requires { F.IsAlwaysCallable counts }
    ensures { (f : OutThere → Bool) → ((x : _) (r : Bool) → FnReturnsAt F.Fn counts x r → r ≡ f (out_of x)) → Decides result (keep_only f (entry_of one.now).outs ≡ keep_only f (entry_of two.now).outs) }
{
    same_lists(
        pick(&one.page, &counts),
        pick(&one.server, &counts),
        pick(&two.page, &counts),
        pick(&two.server, &counts),
    )
}

// Does the site let out the same to others?
pub fn same_let_out(one: &Record, two: &Record, site: SiteNumber) -> bool
    ensures { Decides result (let_out (only (number_of site)) (entry_of one.now).outs ≡ let_out (only (number_of site)) (entry_of two.now).outs) }
{
    same_outs(one, two, |out| reaches(out, site))
}

// Do all others let out the same?
pub fn same_by_others(one: &Record, two: &Record, but: SiteNumber) -> bool
    ensures { Decides result (keep_only (by_others (only (number_of but))) (entry_of one.now).outs ≡ keep_only (by_others (only (number_of but))) (entry_of two.now).outs) }
{
    same_outs(one, two, |out| by_others(out, but))
}
