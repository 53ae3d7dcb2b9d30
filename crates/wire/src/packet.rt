// A packet whose shape nothing refuses, with its message: what those that only read a whole packet are handed.
ghost use Rattle.std.specs.Prelude.{◌≡◌, ℕ, List};
ghost use Rattle.wire.specs.Inner.{message_bytes, message_of, silent_of, Holds};

use crate::Message;
use std::marker::Model;

#[derive(Drop)]
pub struct Packet<'a> {
    bytes: &'a [u8],
    message: Message,
}

impl<'a> Model for Packet<'a> {
    ghost Value = { List ℕ };

    ghost view = { λ p. p.bytes.now };

    ghost invariant = { λ p. Holds p.bytes.now p.message };
}

impl<'a> Packet<'a> {
    #[inline(always)]
    pub fn new(bytes: &'a [u8], message: Message) -> Packet<'a>
        requires { Holds bytes.now message }
        ensures { result ≡ bytes.now }
    {
        Packet { bytes, message }
    }

    #[inline(always)]
    pub fn bytes(&self) -> &'a [u8]
        ensures { result.now ≡ self.now }
    {
        self.bytes
    }

    #[inline(always)]
    pub fn message(&self) -> Message
        ensures { Holds self.now result }
    {
        self.message
    }

    // The message's own bytes.
    #[inline(always)]
    pub fn block(&self) -> &'a [u8]
        ensures bytes { result.now ≡ message_bytes self.now }
        ensures whole { Holds self.now (message_of self.now) }
    {
        &self.bytes[self.message.start..self.message.end]
    }

    // Whether the message is UDP's with the field 0000, which means no sum.
    #[inline(always)]
    pub fn silent(&self) -> bool
        ensures { result ≡ silent_of self.now }
    {
        crate::silent(self.bytes, self.message)
    }
}
