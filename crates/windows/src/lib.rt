// A window of the browser: the script of its page, what it is told, and the words that wait for it.
#![tactic(auto)]

mod loading;
mod process;
mod queue;
mod window;

pub use loading::script_of;
pub use queue::Word;
pub use window::Window;
