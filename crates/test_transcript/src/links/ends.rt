//! The ends of a link, whatever it is made of.

ghost use Rattle.std.specs.Prelude.{◌≡◌, IfOk, IfErr};
ghost use Rattle.lulink.specs.Views.{SenderView, IsNextToPut, HasPut, HasPutNothing, PutOrBack};

use lulink::{Msg, Offer, PutError, TakeError};
use std::sync::Wait;

/// A sender's end.
pub trait Sends: Drop {
    ghost sent: { Self → SenderView };

    fn offers<R: Wait>(&mut self, rt: &R, msg: Msg) -> Offer
        requires { IsNextToPut (sent self.old) msg }
        ensures { PutOrBack result msg (sent self.old) (sent self.new) };

    fn puts<R: Wait>(&mut self, rt: &R, msg: Msg) -> Result<(), PutError>
        requires { IsNextToPut (sent self.old) msg }
        ensures put { IfOk result (λ _. HasPut msg (sent self.old) (sent self.new)) }
        ensures gone { IfErr result (λ _. HasPutNothing (sent self.old) (sent self.new)) };

    fn is_alone(&mut self) -> bool
        ensures { HasPutNothing (sent self.old) (sent self.new) };

    fn leaves(self);
}

/// A receiver's end.
pub trait Receives: Drop {
    fn polls<R: Wait>(&mut self, rt: &R) -> Option<Msg>;

    fn takes<R: Wait>(&mut self, rt: &R) -> Result<Msg, TakeError>;

    fn is_alone(&mut self) -> bool;

    fn leaves(self);
}

impl Sends for lulink::Tx {
    ghost sent = { λ s. s };

    fn offers<R: Wait>(&mut self, _rt: &R, msg: Msg) -> Offer {
        self.offer(msg)
    }

    fn puts<R: Wait>(&mut self, rt: &R, msg: Msg) -> Result<(), PutError> {
        self.put(rt, msg)
    }

    fn is_alone(&mut self) -> bool {
        self.gone()
    }

    fn leaves(self) {
        self.leave();
    }
}

impl Receives for lulink::Rx {
    fn polls<R: Wait>(&mut self, _rt: &R) -> Option<Msg> {
        self.poll()
    }

    fn takes<R: Wait>(&mut self, rt: &R) -> Result<Msg, TakeError> {
        self.take(rt)
    }

    fn is_alone(&mut self) -> bool {
        self.gone()
    }

    fn leaves(self) {
        self.leave();
    }
}

impl Sends for test_reference::Tx {
    ghost sent = { λ s. s };

    fn offers<R: Wait>(&mut self, rt: &R, msg: Msg) -> Offer {
        self.offer(rt, msg)
    }

    fn puts<R: Wait>(&mut self, rt: &R, msg: Msg) -> Result<(), PutError> {
        self.put(rt, msg)
    }

    fn is_alone(&mut self) -> bool {
        self.gone()
    }

    fn leaves(self) {
        self.leave();
    }
}

impl Receives for test_reference::Rx {
    fn polls<R: Wait>(&mut self, rt: &R) -> Option<Msg> {
        self.poll(rt)
    }

    fn takes<R: Wait>(&mut self, rt: &R) -> Result<Msg, TakeError> {
        self.take(rt)
    }

    fn is_alone(&mut self) -> bool {
        self.gone()
    }

    fn leaves(self) {
        self.leave();
    }
}
