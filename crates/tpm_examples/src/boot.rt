//! A boot loader holds a session with a TPM: bound to its owner, it defines a counter, increments
//! it and reads it. Then a reply is lost, and with it the session: another one is started.

use crate::counter::Counter;
use crate::fault::Fault;
use crate::random::Random;
use crate::session::{exchange, opened, start, unopened};
use crate::tpm::Tpm;
use tpm_caller::{Caller, CallerFault};
use tpm_commands::{CommandBody, ReplyBody};
use tpm_types::{AuthValue, SessionHandle};

/// A boot loader, which knows the owner's authorization value, and its TPM.
#[derive(Drop)]
struct Boot {
    tpm: Tpm,
    owner: AuthValue,
    counter: Counter,
    random: Random,
}

impl Boot {
    fn new() -> Self {
        let owner = AuthValue::new(b"owner").unwrap();
        Boot {
            tpm: Tpm::new(&owner),
            owner,
            counter: Counter::new(),
            random: Random::new(),
        }
    }

    /// A session that is bound to the owner, and the caller for its first command.
    fn start(&mut self) -> Result<(SessionHandle, Caller), Fault> {
        start(&mut self.tpm, self.random.nonce(), &self.owner)
    }

    /// Ends a session whose caller is gone.
    fn flush(&mut self, session: SessionHandle) -> Result<(), Fault> {
        self.tpm.send(CommandBody::FlushContext(session))?;
        Ok(())
    }

    /// Increments the counter for the first time. A TPM that does not have it refuses, which gives
    /// the caller back, and the counter is defined.
    fn begin<R: Print>(&mut self, rt: &R, caller: Caller) -> Result<Caller, Fault> {
        let waiting = self.counter.increment(caller, self.random.nonce());
        let reply = self.tpm.transmit(waiting.bytes());
        let (caller, _) = match waiting.give_up(reply.as_slice()) {
            Ok(caller) => {
                println!(rt; "the counter is to be defined")?;
                self.define(caller)?
            }
            Err(waiting) => opened(waiting, reply.as_slice())?,
        };
        self.counter.set_written();
        Ok(caller)
    }

    fn define(&mut self, caller: Caller) -> Result<(Caller, ReplyBody), Fault> {
        let waiting = self.counter.define(caller, self.random.nonce());
        let (caller, _) = exchange(&mut self.tpm, waiting)?;
        let waiting = self.counter.increment(caller, self.random.nonce());
        exchange(&mut self.tpm, waiting)
    }

    /// The counter's value.
    fn read(&mut self, caller: Caller) -> Result<(Caller, u64), Fault> {
        let waiting = self.counter.read(caller, self.random.nonce());
        match exchange(&mut self.tpm, waiting)? {
            (caller, ReplyBody::NvRead(value)) => match <[u8; 8]>::try_from(value.as_slice()) {
                Ok(value) => Ok((caller, u64::from_be_bytes(value))),
                Err(_) => Err(Fault::Answer),
            },
            _ => Err(Fault::Answer),
        }
    }

    /// Increments the counter twice, and the second reply does not come. Neither the first one in
    /// its place nor the command sent again is taken for it.
    fn lose_a_reply<R: Print>(&mut self, rt: &R, caller: Caller) -> Result<(), Fault> {
        let waiting = self.counter.increment(caller, self.random.nonce());
        let old = self.tpm.transmit(waiting.bytes());
        let (caller, _) = opened(waiting, old.as_slice())?;
        let waiting = self.counter.increment(caller, self.random.nonce());
        let _lost = self.tpm.transmit(waiting.bytes());
        let (waiting, fault) = unopened(waiting, old.as_slice())?;
        println!(rt; "an old reply: {fault:?}")?;
        let refusal = self.tpm.transmit(waiting.bytes());
        let (_waiting, fault) = unopened(waiting, refusal.as_slice())?;
        if let CallerFault::Code(code) = fault {
            println!(rt; "sent again: {:#x}", code.number())?;
        }
        Ok(())
    }
}

/// Two sessions with a TPM that is started.
pub(crate) fn hold_a_session<R: Print>(rt: &R) -> Result<(), Fault> {
    let mut boot = Boot::new();
    boot.tpm.start_up()?;
    let (session, caller) = boot.start()?;
    println!(rt; "session {:08x} is started", session.number())?;
    let caller = boot.begin(rt, caller)?;
    let (caller, value) = boot.read(caller)?;
    println!(rt; "the counter is {value}")?;
    boot.lose_a_reply(rt, caller)?;
    boot.flush(session)?;
    let (session, caller) = boot.start()?;
    println!(rt; "session {:08x} is started", session.number())?;
    let (_, value) = boot.read(caller)?;
    println!(rt; "the counter is {value}")?;
    Ok(())
}
