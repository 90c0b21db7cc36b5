// The machine of the model: the calls of a script, one after another, on a map of objects without files, and the objects that are left, as
// their applications see them.

use anyhow::{Context, bail};
use script_text::{Control, Script, Step, print_control, print_event};
use std::alloc::{AllocError, Global};
use std::marker::Model;
use store_model::{Event, Mark, State};
use tee_types::{AppId, Call, Flags, ObjectId, READ, Reply};
use tree_paths::NodeSet;
use trial_runs::{Shown, ShownObject, print_object};

/// A store has no more objects.
const MOST_OBJECTS: u32 = 256;

/// More handles than a session of a trial opens.
const MOST_HANDLES: u32 = 128;

/// More bytes than an object of a trial has.
const MOST_BYTES: u32 = 1 << 20;

/// The machine, with a session for each application of a script.
#[derive(Drop)]
pub struct Machine {
    state: State,
    sessions: usize,
}

impl Model for Machine {
    ghost use Rattle.std.specs.Prelude.{◌≡◌, length};
    ghost use Rattle.store_model.specs.Machine.{MachineState};

    ghost Value = { MachineState };

    ghost view = { λ m. m.state };

    ghost invariant = { λ m. length m.state.sessions ≡ m.sessions };
}

impl Machine {
    // The machine without objects, and a session for each application.
    fn new(alloc: Global, apps: &[AppId]) -> Result<Machine, AllocError> {
        Ok(Machine {
            state: State::empty(alloc, apps)?,
            sessions: apps.len(),
        })
    }

    // The reply to a call of that session.
    fn ask(&mut self, alloc: Global, session: u32, call: &Call) -> anyhow::Result<Reply> {
        if self.sessions <= session as usize {
            bail!("no session of that number");
        }
        Ok(self.state.apply(alloc, session, call))
    }

    // The number of a new handle or enumerator.
    fn ask_number(&mut self, alloc: Global, session: u32, call: &Call) -> anyhow::Result<u32> {
        match self.ask(alloc, session, call)? {
            Reply::Handle(number) => Ok(number),
            _ => bail!("no number"),
        }
    }

    /// Makes the calls of a script.
    pub fn run(alloc: Global, script: &Script) -> anyhow::Result<Machine> {
        let mut machine = Machine::new(alloc, script.applications())?;
        for step in script.all_steps() {
            if let Step::Call { app, call } = step {
                let _ = machine.ask(alloc, *app, call)?;
            }
        }
        Ok(machine)
    }

    // Makes a call, and prints its event as a run does.
    fn print_call(
        &mut self,
        alloc: Global,
        names: &Script,
        place: u64,
        session: u32,
        call: &Call,
        out: &mut Vec<u8>,
    ) -> anyhow::Result<()> {
        let reply = self.ask(alloc, session, call)?;
        let event = Event::Call {
            session,
            number: place,
            call: call.copy(alloc)?,
            reply,
            mark: Mark::Unchanged,
        };
        print_event(place, names, &event, out)?;
        Ok(())
    }

    /// Makes the calls of a script. Gives their history and the objects that are left, as a run prints them.
    pub fn print(alloc: Global, script: &Script) -> anyhow::Result<Vec<u8>> {
        let mut machine = Machine::new(alloc, script.applications())?;
        let mut out = Vec::new(alloc);
        let mut place = 0u64;
        for step in script.all_steps() {
            if let Step::Call { app, call } = step {
                machine.print_call(alloc, script, place, *app, call, &mut out)?;
                place = place.saturating_add(1);
            }
        }
        print_control(&Control::List, &mut out)?;
        out.extend_from_slice(&machine.lines(alloc, script.applications())?)?;
        Ok(out)
    }

    // Closes what a session has open.
    fn close_all(&mut self, alloc: Global, session: u32) -> anyhow::Result<()> {
        for handle in 0..MOST_HANDLES {
            let _ = self.ask(alloc, session, &Call::Close { handle })?;
        }
        Ok(())
    }

    // An object of that session's application.
    fn shown(
        &mut self,
        alloc: Global,
        session: u32,
        app: AppId,
        id: ObjectId,
    ) -> anyhow::Result<Shown> {
        let flags = Flags { bits: READ };
        let handle = self.ask_number(alloc, session, &Call::Open { id, flags })?;
        let Reply::Info {
            size,
            attributes,
            ..
        } = self.ask(alloc, session, &Call::Info { handle })?
        else {
            bail!("an object without attributes");
        };
        let read = Call::Read {
            handle,
            size: MOST_BYTES,
        };
        let Reply::Content(bytes) = self.ask(alloc, session, &read)? else {
            bail!("an object without data");
        };
        let _ = self.ask(alloc, session, &Call::Close { handle })?;
        Ok(Shown {
            app,
            id,
            size,
            object: ShownObject::Sound {
                attributes,
                bytes,
                bad: NodeSet::none(),
            },
        })
    }

    // Pushes the lines of the objects of that session's application.
    fn push_lines(
        &mut self,
        alloc: Global,
        session: u32,
        app: AppId,
        lines: &mut Vec<u8>,
    ) -> anyhow::Result<()> {
        let number = self.ask_number(alloc, session, &Call::EnumNew)?;
        let _ = self.ask(alloc, session, &Call::EnumStart { number })?;
        for _ in 0..MOST_OBJECTS {
            let Reply::Found { id, .. } = self.ask(alloc, session, &Call::EnumNext { number })?
            else {
                break;
            };
            let shown = self.shown(alloc, session, app, id)?;
            print_object(&shown, lines)?;
        }
        Ok(())
    }

    /// The lines of the objects, in the order of the applications. All handles are closed.
    pub fn lines(&mut self, alloc: Global, apps: &[AppId]) -> anyhow::Result<Vec<u8>> {
        let mut lines = Vec::new(alloc);
        for session in 0..u32::try_from(apps.len()).context("too many applications")? {
            self.close_all(alloc, session)?;
        }
        for (session, app) in apps.iter().enumerate() {
            // Sessions of one application have the same objects.
            if apps.iter().take(session).any(|other| other == app) {
                continue;
            }
            let session = u32::try_from(session).context("too many applications")?;
            self.push_lines(alloc, session, *app, &mut lines)?;
        }
        Ok(lines)
    }
}
