//! What the lines of an input do.

ghost use Rattle.std.specs.Prelude.{◌≡◌, ◌≤◌, length};
ghost use Rattle.update_lines.specs.Limits.{most_clients};

use crate::request::Request;
use document_replies::LineFault;

/// What a line that is not blank is.
#[derive(Clone, Copy)]
pub enum Slot {
    /// It is a client's.
    Client,
    /// It is told what is wrong with it.
    Wrong(LineFault),
}

/// What the lines of an input ask for.
pub struct Heard {
    /// For each line that is not blank, in order.
    pub slots: Vec<Slot>,
    /// The clients, in the order of their lines.
    pub requests: Vec<Request>,
    ghost few: { length requests.items ≤ most_clients },
}

impl Drop for Heard {
    fn drop(self) {
        let Heard {
            slots: _slots,
            requests: _requests,
        } = self;
    }
}

impl Heard {
    /// What each line is, and the clients.
    pub fn into_parts(self) -> (Vec<Slot>, Vec<Request>)
        ensures slots { result.0 ≡ self.slots }
        ensures requests { result.1 ≡ self.requests }
        ensures few { length result.1.items ≤ most_clients }
    {
        let Heard { slots, requests } = self;
        (slots, requests)
    }
}
