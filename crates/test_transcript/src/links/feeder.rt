//! A sender's end with the messages of its link.

ghost use Rattle.std.specs.Prelude.{◌≡◌, length};
ghost use Rattle.lulink.specs.Lists.{list_of};

use crate::links::ends::Sends;
use lulink::{Msg, Offer, PutError};
use std::sync::Wait;

/// The sender's end, with the messages of its link, of which so many were put.
#[derive(Drop)]
pub struct Feeder<'l, S: Sends> {
    pub tx: S,
    pub list: &'l [Msg],
    pub at: usize,
    ghost fed: { (list.now ≡ list_of (S.sent tx).job (S.sent tx).link)
        × (length (S.sent tx).put ≡ at) },
}

impl<S: Sends> Feeder<'_, S> {
    /// Offers the next message; `None` where all were put.
    pub fn offer<R: Wait>(&mut self, rt: &R) -> Option<Offer> {
        let Some(msg) = self.list.get(self.at).copied() else {
            return None;
        };
        let offer = self.tx.offers(rt, msg);
        match offer {
            Offer::Done => self.at += 1,
            Offer::Full(_) => {}
        }
        Some(offer)
    }

    /// Puts the next message; `None` where all were put.
    pub fn put<R: Wait>(&mut self, rt: &R) -> Option<Result<(), PutError>> {
        let Some(msg) = self.list.get(self.at).copied() else {
            return None;
        };
        let put = self.tx.puts(rt, msg);
        match put {
            Ok(()) => self.at += 1,
            Err(_) => {}
        }
        Some(put)
    }
}
