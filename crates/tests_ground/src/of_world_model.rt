// Of world_model: requests, replies, happenings, messages and scripts are copied.
use erl_base::{Duplicate, List, Name, NoMemory};
use erl_term::Term;
use std::alloc::Global;
use std::test::Fail;
use world_model::{Delay, Happening, How, Message, Reply, Request, Script};

fn reply(alloc: Global) -> Result<Reply, NoMemory> {
    let mut arrivals = List::new(alloc);
    arrivals.push(Term::Int(1))?;
    Ok(Reply {
        arrivals,
        how: How::Return,
        term: Term::Nil,
    })
}

fn call(alloc: Global) -> Result<Request, NoMemory> {
    let module = Name::from_text(alloc, "io")?;
    let name = Name::from_text(alloc, "nl")?;
    Ok(Request::Call(module, name, List::new(alloc)))
}

fn copied_happening(alloc: Global) -> Result<Happening, NoMemory> {
    let asked = call(alloc)?;
    let happening = Happening::Asked(asked, reply(alloc)?);
    Duplicate::copy(&happening, alloc)
}

fn script(alloc: Global) -> Result<Script, NoMemory> {
    let mut replies = List::new(alloc);
    replies.push(reply(alloc)?)?;
    let mut choices = List::new(alloc);
    choices.push(false)?;
    Ok(Script {
        own: Term::Pid(0),
        mailbox: List::new(alloc),
        replies,
        choices,
    })
}

#[test]
fn ways_are_copied(rt: HostRuntime) -> Result<(), Fail> {
    let alloc = rt.alloc();
    assert_eq!(rt;
        Duplicate::copy(&Delay::Millis(7), alloc)?,
        Delay::Millis(7)
    );
    assert_eq!(rt; Duplicate::copy(&How::Throw, alloc)?, How::Throw);
    Ok(())
}

#[test]
fn requests_are_copied(rt: HostRuntime) -> Result<(), Fail> {
    let request: Request = Duplicate::copy(&call(rt.alloc())?, rt.alloc())?;
    assert!(rt; matches!(request, Request::Call(..)));
    Ok(())
}

#[test]
fn happenings_are_copied(rt: HostRuntime) -> Result<(), Fail> {
    let copy = copied_happening(rt.alloc())?;
    assert!(rt; matches!(copy, Happening::Asked(..)));
    Ok(())
}

#[test]
fn scripts_are_copied(rt: HostRuntime) -> Result<(), Fail> {
    let script = script(rt.alloc())?;
    let copy: Script = Duplicate::copy(&script, rt.alloc())?;
    assert!(rt; copy.replies.len() == 1);
    Ok(())
}

#[test]
fn messages_are_copied(rt: HostRuntime) -> Result<(), Fail> {
    let mut mailbox = List::new(rt.alloc());
    mailbox.push(Message {
        serial: 2,
        term: Term::Nil,
    })?;
    let copy: List<Message> = Duplicate::copy(&mailbox, rt.alloc())?;
    assert!(rt; copy.len() == 1 && copy.as_slice()[0].serial == 2);
    Ok(())
}
