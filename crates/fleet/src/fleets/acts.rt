//! What each act does to the machine at which it happens, and to what is around it.

ghost use Rattle.std.specs.Prelude.{◌≡◌, []};
ghost use Rattle.device.specs.Commands.{answered};
ghost use Rattle.device.specs.declared.chips.Command.TheVariants as commands;
ghost use Rattle.fleet.specs.Sights.{found, played, alone, acted, given, telling, cut_counting, cut_closing};
ghost use Rattle.fleet.specs.declared.fleets.Act.TheVariants as acts;
ghost use Rattle.fleet.specs.declared.fleets.Event.TheVariants as kinds;

use crate::fleets::{Act, Fault, Fleet, Outside, Report, Shown};
use boot::disks::Name;
use boot::machines::Machine;
use device::chips::{Answer, Command, Target, Thing};
use device::digests::{Data, Digest};
use device::refusals::Refusal;

impl Fleet {
    /// What happens at the machine of this number.
    pub(crate) fn at(&mut self, i: usize, act: Act) -> Result<Report, Fault>
        ensures { (self.new, result) ≡ played (found result) self.old (kinds.At i act) [] }
    {
        let machine = self.machines.get_mut(i).ok_or(Fault::Nobody)?;
        self.outside.act(machine, act)
    }
}

/// Each is what it would be if there were no other machine.
impl Outside {
    fn act(&mut self, machine: &mut Machine, act: Act) -> Result<Report, Fault>
        ensures { (alone machine.new self.new, result) ≡ acted (found result) 0 (alone machine.old self.old) machine.old act }
    {
        match act {
            Act::Switch => {
                *machine = machine.switch();
                Ok(Report::Done)
            }
            Act::Start(name) => self.start(machine, name),
            Act::Load(name) => self.load(machine, name),
            Act::Give(command) => self.give(machine, command),
            Act::Keep(target, data) => tell(machine, Command::Close(target, data)),
            Act::Run(digest) => self.run(machine, digest),
            Act::CutCount(written) => {
                *machine = cut_count(*machine, written);
                Ok(Report::Done)
            }
            Act::CutClose => {
                *machine = cut_close(*machine);
                Ok(Report::Done)
            }
        }
    }

    fn start(&mut self, machine: &mut Machine, name: Name) -> Result<Report, Fault>
        ensures { (alone machine.new self.new, result) ≡ acted (found result) 0 (alone machine.old self.old) machine.old (acts.Start name) }
    {
        let (next, started) = machine.start(self.first, &mut self.disk, name);
        *machine = next;
        started?;
        Ok(Report::Done)
    }

    fn load(&mut self, machine: &mut Machine, name: Name) -> Result<Report, Fault>
        ensures { (alone machine.new self.new, result) ≡ acted (found result) 0 (alone machine.old self.old) machine.old (acts.Load name) }
    {
        *machine = machine.ask(&mut self.disk, name)?;
        Ok(Report::Done)
    }

    /// A bad program loads another past the chip.
    fn run(&self, machine: &mut Machine, digest: Digest) -> Result<Report, Fault>
        ensures { (alone machine.new self.now, result) ≡ acted (found result) 0 (alone machine.old self.now) machine.old (acts.Run digest) }
    {
        let before = machine.ran;
        if !self.tainted(before) {
            return Err(Fault::Unwilling);
        }
        machine.ran = before.with(digest).ok_or(Refusal::Full)?;
        Ok(Report::Done)
    }

    fn give(&mut self, machine: &mut Machine, command: Command) -> Result<Report, Fault>
        ensures { (alone machine.new self.new, result) ≡ given (found result) 0 (alone machine.old self.old) machine.old command }
    {
        match command {
            Command::Put(digest) => self.put(machine, digest),
            Command::Sign(data) => self.sign(*machine, data),
            Command::Open(thing) => self.open(*machine, thing),
            Command::Count | Command::Close(..) | Command::Read | Command::SwitchedOn => {
                tell(machine, command)
            }
        }
    }

    /// A good program puts in only what it loads.
    fn put(&self, machine: &mut Machine, digest: Digest) -> Result<Report, Fault>
        ensures { (alone machine.new self.now, result) ≡ given (found result) 0 (alone machine.old self.now) machine.old (commands.Put digest) }
    {
        if !self.tainted(machine.ran) {
            return Err(Fault::Unwilling);
        }
        tell(machine, Command::Put(digest))
    }

    fn sign(&mut self, machine: Machine, data: Data) -> Result<Report, Fault>
        ensures { (alone machine self.new, result) ≡ given (found result) 0 (alone machine self.old) machine (commands.Sign «data») }
    {
        let signature = machine.chip.sign(data);
        let shown = Shown {
            signature,
            ran: machine.ran,
        };
        self.shown.insert(0, shown)?;
        Ok(Report::Answered(Answer::Signed(signature)))
    }

    /// What was opened a bad program tells outsiders.
    fn open(&mut self, machine: Machine, thing: Thing) -> Result<Report, Fault>
        ensures { (alone machine self.new, result) ≡ given (found result) 0 (alone machine self.old) machine (commands.Open thing) }
    {
        let data = machine.chip.open(thing)?;
        if self.tainted(machine.ran) {
            self.heard.insert(0, data)?;
        }
        Ok(Report::Answered(Answer::Opened(data)))
    }
}

/// The chip is given the command, and what it answers is reported.
fn tell(machine: &mut Machine, command: Command) -> Result<Report, Fault>
    ensures { (machine.new, result) ≡ telling machine.old (answered machine.old.chip command) }
{
    let (chip, answer) = machine.chip.answer(command)?;
    machine.chip = chip;
    Ok(Report::Answered(answer))
}

/// Power is lost while the chip counts.
fn cut_count(machine: Machine, written: bool) -> Machine
    ensures { result ≡ cut_counting machine written }
{
    let counted = machine.chip.count().unwrap_or(machine.chip);
    let chip = if written { counted } else { machine.chip };
    Machine { chip, ..machine }.switch()
}

/// What would have been closed is lost, whatever it was.
fn cut_close(machine: Machine) -> Machine
    ensures { result ≡ cut_closing machine }
{
    let closed = machine.chip.close(Target::Nowhere, Data { bytes: [0; 32] });
    let chip = closed.map_or(machine.chip, |(chip, _)| chip);
    Machine { chip, ..machine }.switch()
}
