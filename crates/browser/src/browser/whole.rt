// A turn, whole: the two halves, with the answer's bytes in between.
ghost use Rattle.std.specs.Prelude.{◌≡◌, ◌++◌};
ghost use Rattle.pages.specs.Browser.{needs, TurnOf};
ghost use Rattle.pages.specs.Code.{turned, outs_with};
ghost use Rattle.browser.specs.Parts.{part_of, sites_in, scripts_in};
ghost use Rattle.browser.specs.Values.{outs_of};
ghost use Rattle.browser.specs.Whole.{reply_in};

use super::Browser;
use crate::pending::Finished;

impl Browser {
    // A turn of a window where the answer is known before: what the two calls together do is the promise's own turn, for
    // every answer's bytes, and what they say was let out is the promise's own list.
    pub fn turn(self, window: u32, answer: &[u8]) -> Finished
        ensures part { part_of result.browser ≡ turned (scripts_in self) (TurnOf window) (reply_in (sites_in self) (needs (scripts_in self) (TurnOf window) (part_of self)) answer.now) (part_of self) }
        ensures outs { outs_of result.page ++ outs_of result.server ≡ outs_with (scripts_in self) (TurnOf window) (reply_in (sites_in self) (needs (scripts_in self) (TurnOf window) (part_of self)) answer.now) (part_of self) }
        ensures sites { sites_in result.browser ≡ sites_in self }
    {
        self.begin(window).finish(answer)
    }
}
