ghost use Rattle.std.specs.Prelude.{◌≡◌, IfOk};

use erl_base::{Duplicate, List, Name, NoMemory};
use erl_term::{Term, Terms};
use std::alloc::Global;

/// How long a process waits for a message.
#[derive(Clone, Copy, Debug, PartialEq, Eq)]
pub enum Delay {
    Forever,
    Millis(u32),
}

/// What a process asks of the world: a call of a function by module and name, a message sent to a term, the trace of
/// the last raise, the messages that came, or the messages that come before a delay is over.
#[derive(Debug, Drop)]
pub enum Request {
    Call(Name, Name, Terms),
    Send(Term, Term),
    Trace,
    Look,
    Wait(Delay),
}

/// The way of a reply.
#[derive(Clone, Copy, Debug, PartialEq, Eq)]
pub enum How {
    Return,
    Error,
    Exit,
    Throw,
}

/// What the world replies, and the messages that came meanwhile.
#[derive(Debug, Drop)]
pub struct Reply {
    pub arrivals: Terms,
    pub how: How,
    pub term: Term,
}

/// What can be seen of a run: a request with its reply, or the serial of a message that was taken.
#[derive(Debug, Drop)]
pub enum Happening {
    Asked(Request, Reply),
    Taken(u64),
}

/// A message of a mailbox. The first mailbox has the serials from 0 on, and messages that come have the next ones.
#[derive(Debug, Drop)]
pub struct Message {
    pub serial: u64,
    pub term: Term,
}

/// What the world does in one run. `own` is a pid; a choice is whether the next marker that is used is still kept,
/// and where no choice is left it is.
#[derive(Debug, Drop)]
pub struct Script {
    pub own: Term,
    pub mailbox: Terms,
    pub replies: Replies,
    pub choices: Choices,
}

/// Messages, the oldest first.
pub type Mailbox = List<Message>;

/// Replies, the next one first.
pub type Replies = List<Reply>;

/// Choices, the next one first.
pub type Choices = List<bool>;

/// What happened, the first first.
pub type Happenings = List<Happening>;

impl Request {
    pub fn copy(&self, alloc: Global) -> Result<Request, NoMemory>
        ensures { IfOk result (λ request. request ≡ self.now) }
    {
        match self {
            Request::Call(module, name, args) => {
                let module = module.copy(alloc)?;
                let name = name.copy(alloc)?;
                Ok(Request::Call(module, name, args.copy(alloc)?))
            }
            Request::Send(to, message) => {
                let to = to.copy(alloc)?;
                Ok(Request::Send(to, message.copy(alloc)?))
            }
            Request::Trace => Ok(Request::Trace),
            Request::Look => Ok(Request::Look),
            Request::Wait(delay) => Ok(Request::Wait(*delay)),
        }
    }
}

impl Reply {
    pub fn copy(&self, alloc: Global) -> Result<Reply, NoMemory>
        ensures { IfOk result (λ reply. reply ≡ self.now) }
    {
        let arrivals = self.arrivals.copy(alloc)?;
        Ok(Reply {
            arrivals,
            how: self.how,
            term: self.term.copy(alloc)?,
        })
    }
}

impl Happening {
    pub fn copy(&self, alloc: Global) -> Result<Happening, NoMemory>
        ensures { IfOk result (λ happening. happening ≡ self.now) }
    {
        match self {
            Happening::Asked(request, reply) => {
                let request = request.copy(alloc)?;
                Ok(Happening::Asked(request, reply.copy(alloc)?))
            }
            Happening::Taken(serial) => Ok(Happening::Taken(*serial)),
        }
    }
}

impl Message {
    pub fn copy(&self, alloc: Global) -> Result<Message, NoMemory>
        ensures { IfOk result (λ message. message ≡ self.now) }
    {
        Ok(Message {
            serial: self.serial,
            term: self.term.copy(alloc)?,
        })
    }
}

impl Script {
    pub fn copy(&self, alloc: Global) -> Result<Script, NoMemory>
        ensures { IfOk result (λ script. script ≡ self.now) }
    {
        let own = self.own.copy(alloc)?;
        let mailbox = self.mailbox.copy(alloc)?;
        let replies = self.replies.copy(alloc)?;
        Ok(Script {
            own,
            mailbox,
            replies,
            choices: copy_choices(&self.choices, alloc)?,
        })
    }
}

fn copy_choices(choices: &Choices, alloc: Global) -> Result<Choices, NoMemory>
    ensures { IfOk result (λ copy. copy ≡ choices.now) }
{
    let mut copy = List::new(alloc);
    for choice in choices.as_slice() {
        copy.push(*choice)?;
    }
    Ok(copy)
}

impl Duplicate for Delay {
    fn copy(&self, _alloc: Global) -> Result<Delay, NoMemory> {
        Ok(*self)
    }
}

impl Duplicate for How {
    fn copy(&self, _alloc: Global) -> Result<How, NoMemory> {
        Ok(*self)
    }
}

impl Duplicate for Request {
    fn copy(&self, alloc: Global) -> Result<Request, NoMemory> {
        Request::copy(self, alloc)
    }
}

impl Duplicate for Reply {
    fn copy(&self, alloc: Global) -> Result<Reply, NoMemory> {
        Reply::copy(self, alloc)
    }
}

impl Duplicate for Happening {
    fn copy(&self, alloc: Global) -> Result<Happening, NoMemory> {
        Happening::copy(self, alloc)
    }
}

impl Duplicate for Message {
    fn copy(&self, alloc: Global) -> Result<Message, NoMemory> {
        Message::copy(self, alloc)
    }
}

impl Duplicate for Script {
    fn copy(&self, alloc: Global) -> Result<Script, NoMemory> {
        Script::copy(self, alloc)
    }
}
