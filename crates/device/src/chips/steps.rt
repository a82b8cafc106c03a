//! The chip's steps, by value: each gives the new chip and what it answers, or why it refuses; a refusal changes nothing.

ghost use Rattle.std.specs.Prelude.{◌≡◌};
ghost use Rattle.device.specs.Commands.{new_chip, put_of, signature_of, counted, closed, opened, read_of, switched, answered};
ghost use Rattle.device.specs.Worlds.{Steps, Switches};

use crate::chips::{Answer, Chip, Command, Content, Seal, Signature, Target, Thing};
use crate::digests::{Data, Digest};
use crate::refusals::Refusal;
use crate::registers::Register;

/// Counter and number stop here.
const LIMIT: u64 = 1 << 63;

impl Chip {
    /// A chip as it is made, with this number.
    pub fn new(id: u32) -> Chip
        ensures { result ≡ new_chip id }
    {
        Chip {
            id,
            register: Register::empty(),
            counter: 0,
            number: 0,
        }
    }

    pub fn id(self) -> u32
        ensures { result ≡ self.id }
    {
        self.id
    }

    pub fn register(self) -> Register
        ensures { result ≡ self.register }
    {
        self.register
    }

    /// From the switch alone: the register is emptied, and counter and number stay.
    pub fn switched_on(self) -> Chip
        ensures exact { result ≡ switched self }
        ensures steps { Switches self result }
    {
        let register = Register::empty();
        Chip { register, ..self }
    }

    pub fn put(self, digest: Digest) -> Result<Chip, Refusal>
        ensures { result ≡ put_of self digest }
    {
        let register = self.register.with(digest).ok_or(Refusal::Full)?;
        Ok(Chip { register, ..self })
    }

    pub fn sign(self, data: Data) -> Signature
        ensures { result ≡ signature_of self «data» }
    {
        Signature {
            chip: self.id,
            data,
            register: self.register,
        }
    }

    pub fn count(self) -> Result<Chip, Refusal>
        ensures { result ≡ counted self }
    {
        if self.counter >= LIMIT {
            return Err(Refusal::UsedUp);
        }
        let counter = self.counter + 1;
        Ok(Chip { counter, ..self })
    }

    pub fn close(self, target: Target, data: Data) -> Result<(Chip, Thing), Refusal>
        ensures { result ≡ closed self target «data» }
    {
        if self.number >= LIMIT {
            return Err(Refusal::UsedUp);
        }
        let content = Content {
            number: self.number,
            target,
            counter: self.counter,
            data,
        };
        let seal = Seal {
            chip: self.id,
            content,
        };
        let chip = Chip {
            number: self.number + 1,
            ..self
        };
        Ok((chip, Thing { content, seal }))
    }

    /// The seal first, then the row, then the counter: the first that does not fit is told.
    pub fn open(self, thing: Thing) -> Result<Data, Refusal>
        ensures { result ≡ opened self thing }
    {
        if !thing.sealed_by(self.id) {
            return Err(Refusal::BadSeal);
        }
        if !thing.content.target.is_row(self.register) {
            return Err(Refusal::OtherRow);
        }
        if thing.content.counter != self.counter {
            return Err(Refusal::OtherCounter);
        }
        Ok(thing.content.data)
    }

    /// The counter and the row of now.
    pub fn read(self) -> (u64, Register)
        ensures { result ≡ read_of self }
    {
        (self.counter, self.register)
    }

    /// Whatever a program gives the chip.
    pub fn answer(self, command: Command) -> Result<(Chip, Answer), Refusal>
        ensures exact { result ≡ answered self command }
        ensures steps { Steps self command result }
    {
        self.reply(command)
    }

    fn reply(self, command: Command) -> Result<(Chip, Answer), Refusal>
        ensures { result ≡ answered self command }
    {
        match command {
            Command::Put(digest) => Ok((self.put(digest)?, Answer::Done)),
            Command::Sign(data) => Ok((self, Answer::Signed(self.sign(data)))),
            Command::Count => {
                let chip = self.count()?;
                Ok((chip, Answer::Counter(chip.counter)))
            }
            Command::Close(target, data) => {
                let (chip, thing) = self.close(target, data)?;
                Ok((chip, Answer::Closed(thing)))
            }
            Command::Open(thing) => Ok((self, Answer::Opened(self.open(thing)?))),
            Command::Read => {
                let (counter, register) = self.read();
                Ok((self, Answer::Now(counter, register)))
            }
            Command::SwitchedOn => Err(Refusal::Malformed),
        }
    }
}
