//! Doing the lines of a script of the card.

ghost use Rattle.std.specs.Prelude.{◌≡◌, ◌⊎◌, ◌≤◌, ◌<◌, ◌^◌, IfErr, IfOk, IsOkAnd, MatchResult};
ghost use Rattle.tee_ports.specs.Faults.{Rose};
ghost use Rattle.card_script.specs.declared.card_line.CardLine.TheVariants.{List as ListLine, Remount};
ghost use Rattle.rpmb_files.specs.Devices.{Devices, devices};
ghost use Rattle.rpmb_files.specs.Stores.{store_state};
ghost use Rattle.script_runner.specs.CardRecords.{Told, record_text};
ghost use Rattle.script_runner.specs.CardSteps.{Disarms, RefusesMount, Remounts};
ghost use Rattle.script_runner.specs.CardRuns.{IsOfMount};
ghost use Rattle.script_runner.specs.CardRunning.{CardGoesOn, CardStops, IsLineCut, IsLineSent};

use crate::Status;
use crate::card_answers::{done_reply, found_reply, send_answer, send_names};
use crate::card_refusal::print_card_refusal;
use crate::card_state::{CardEnd, CardRun};
use card_script::{CardLine, CardReply};
use rpmb_card::CardRig;
use rpmb_files::{CardHalted, CardParts, CardStore};
use rpmb_host::{Host, SecretKey};
use std::alloc::Global;
use tee_ports::{Entropy, Sink};
use tee_types::NoMemory;

/// The end of a run, with that status.
fn end_with<R: CardRig + Drop, E: Entropy>(status: Status, run: CardRun<R, E>) -> CardEnd<R>
    ensures card { result.card ≡ run.store.host.port }
    ensures status { result.status ≡ status }
{
    let CardParts { host, .. } = run.store.into_parts();
    CardEnd {
        status,
        card: host.into_port(),
    }
}

/// Sends the line of a reply.
fn tell<K: Sink, R: CardRig + Drop, E: Entropy>(
    line: &CardLine,
    reply: &CardReply,
    run: CardRun<R, E>,
    sink: &mut K,
) -> Result<CardRun<R, E>, CardEnd<R>>
    requires { run.at < 2 ^ 63 }
    ensures ok { IfOk result (IsLineSent (K.held sink.old) (K.held sink.new) (record_text run.at line.now (Told reply.now)) run) }
    ensures err { IfErr result (IsLineCut (Rose (K.faults sink.old) (K.faults sink.new) ⊎ K.is_full sink.new) (K.held sink.old) (K.held sink.new)
        (record_text run.at line.now (Told reply.now)) run) }
    ensures counted { K.faults sink.old ≤ K.faults sink.new }
{
    let mut run = run;
    match send_answer(run.at as u64, line, reply, sink, &mut run.kept) {
        Ok(()) => {
            run.at += 1;
            Ok(run)
        }
        Err(status) => Err(end_with(status, run)),
    }
}

/// Sends the line of the reply of a call, if it has one.
fn answer<K: Sink, R: CardRig + Drop, E: Entropy>(
    line: &CardLine,
    reply: Result<CardReply, NoMemory>,
    run: CardRun<R, E>,
    sink: &mut K,
) -> Result<CardRun<R, E>, CardEnd<R>>
    requires { run.at < 2 ^ 63 }
    ensures ok { IfOk result (λ next. IsOkAnd reply (λ r. IsLineSent (K.held sink.old) (K.held sink.new) (record_text run.at line.now (Told r)) run next)) }
    ensures err { IfErr result (λ end. MatchResult reply
        (λ r. IsLineCut (Rose (K.faults sink.old) (K.faults sink.new) ⊎ K.is_full sink.new) (K.held sink.old) (K.held sink.new)
        (record_text run.at line.now (Told r)) run end)
        (λ _. (end.card ≡ run.store.host.port) × (end.status ≡ Status.NoMemory) × (K.held sink.new ≡ K.held sink.old))) }
    ensures counted { K.faults sink.old ≤ K.faults sink.new }
{
    match reply {
        Ok(reply) => tell(line, &reply, run, sink),
        Err(_) => Err(end_with(Status::NoMemory, run)),
    }
}

/// Lists the names of the objects, and sends their lines.
fn do_list<K: Sink, R: CardRig + Drop, E: Entropy>(
    alloc: Global,
    line: &CardLine,
    run: CardRun<R, E>,
    sink: &mut K,
) -> Result<CardRun<R, E>, CardEnd<R>>
    requires place { run.at < 2 ^ 63 }
    requires line { line.now ≡ ListLine }
    ensures ok { (first : E) → IfOk result (CardGoesOn R.state E.faults (E.is_reliable first) line.now (K.held sink.old) (K.held sink.new) run) }
    ensures err { (first : E) → IfErr result (CardStops R.state E.faults (E.is_reliable first) (Rose (K.faults sink.old) (K.faults sink.new) ⊎ K.is_full sink.new)
        line.now (K.held sink.old) (K.held sink.new) run) }
    ensures store { IfOk result (λ next. next.store ≡ run.store) }
    ensures counted { K.faults sink.old ≤ K.faults sink.new }
{
    let Ok(names) = run.store.list(alloc) else {
        return Err(end_with(Status::NoMemory, run));
    };
    let mut run = run;
    match send_names(run.at as u64, line, names.as_slice(), sink, &mut run.kept) {
        Ok(()) => {
            run.at += 1;
            Ok(run)
        }
        Err(status) => Err(end_with(status, run)),
    }
}

/// Disarms the port of a store, and mounts it anew. The nonces go on from where they stood.
fn remount<R: CardRig + Drop, E: Entropy>(
    alloc: Global,
    key: &SecretKey,
    store: CardStore<R, E>,
) -> Result<CardStore<R, E>, CardHalted<R, E>>
    requires { store.host.key ≡ key.now }
    ensures ok { IfOk result (λ next. Remounts (store_state R.state E.faults store) (store_state R.state E.faults next)) }
    ensures err { (first : E) → (E.is_reliable first → E.is_reliable store.entropy) → IfErr result (λ h. (between : Devices) × Disarms (store_state R.state E.faults store) between
        × RefusesMount (E.is_reliable first) store.host.key between (devices (R.state h.host.port) (E.faults h.entropy)) h.fault) }
    ensures fault { IfErr result (λ h. IsOfMount h.fault) }
    ensures reliable { E.is_reliable store.entropy → IfOk result (λ next. E.is_reliable next.entropy) }
    ensures key { IfOk result (λ next. next.host.key ≡ key.now) }
{
    let CardParts { host, entropy } = store.into_parts();
    let mut port = host.into_port();
    port.disarm();
    CardStore::mount(alloc, Host::new(port, key.copy()), entropy)
}

/// Mounts the store anew, and sends the line.
fn do_remount<K: Sink, R: CardRig + Drop, E: Entropy>(
    alloc: Global,
    key: &SecretKey,
    line: &CardLine,
    run: CardRun<R, E>,
    sink: &mut K,
) -> Result<CardRun<R, E>, CardEnd<R>>
    requires place { run.at < 2 ^ 63 }
    requires key { run.store.host.key ≡ key.now }
    requires line { line.now ≡ Remount }
    ensures ok { (first : E) → IfOk result (CardGoesOn R.state E.faults (E.is_reliable first) line.now (K.held sink.old) (K.held sink.new) run) }
    ensures err { (first : E) → (E.is_reliable first → E.is_reliable run.store.entropy)
        → IfErr result (CardStops R.state E.faults (E.is_reliable first) (Rose (K.faults sink.old) (K.faults sink.new) ⊎ K.is_full sink.new)
        line.now (K.held sink.old) (K.held sink.new) run) }
    ensures reliable { E.is_reliable run.store.entropy → IfOk result (λ next. E.is_reliable next.store.entropy) }
    ensures key { IfOk result (λ next. next.store.host.key ≡ key.now) }
    ensures counted { K.faults sink.old ≤ K.faults sink.new }
{
    let CardRun { store, at, kept } = run;
    match remount(alloc, key, store) {
        Ok(store) => tell(line, &CardReply::Done, CardRun { store, at, kept }, sink),
        Err(CardHalted { host, fault, .. }) => {
            let status = print_card_refusal(fault, sink, kept);
            Err(CardEnd {
                status,
                card: host.into_port(),
            })
        }
    }
}

/// Does a line, and sends its text.
pub(crate) fn do_line<K: Sink, R: CardRig + Drop, E: Entropy>(
    alloc: Global,
    key: &SecretKey,
    line: &CardLine,
    run: CardRun<R, E>,
    sink: &mut K,
) -> Result<CardRun<R, E>, CardEnd<R>>
    requires place { run.at < 2 ^ 63 }
    requires key { run.store.host.key ≡ key.now }
    ensures ok { (first : E) → (E.is_reliable first → E.is_reliable run.store.entropy)
        → IfOk result (CardGoesOn R.state E.faults (E.is_reliable first) line.now (K.held sink.old) (K.held sink.new) run) }
    ensures err { (first : E) → (E.is_reliable first → E.is_reliable run.store.entropy)
        → IfErr result (CardStops R.state E.faults (E.is_reliable first) (Rose (K.faults sink.old) (K.faults sink.new) ⊎ K.is_full sink.new)
        line.now (K.held sink.old) (K.held sink.new) run) }
    ensures reliable { E.is_reliable run.store.entropy → IfOk result (λ next. E.is_reliable next.store.entropy) }
    ensures key { IfOk result (λ next. next.store.host.key ≡ key.now) }
    ensures counted { K.faults sink.old ≤ K.faults sink.new }
{
    let mut run = run;
    match line {
        CardLine::Put { app, id, bytes } => {
            let reply = done_reply(run.store.put(*app, *id, bytes.as_slice()));
            answer(line, reply, run, sink)
        }
        CardLine::Get { app, id } => {
            let reply = found_reply(run.store.get(alloc, *app, *id));
            answer(line, reply, run, sink)
        }
        CardLine::Remove { app, id } => {
            let reply = done_reply(run.store.remove(*app, *id));
            answer(line, reply, run, sink)
        }
        CardLine::List => do_list(alloc, line, run, sink),
        CardLine::Stop(exchanges) => {
            run.store.stop_after(u64::from(*exchanges));
            tell(line, &CardReply::Done, run, sink)
        }
        CardLine::Remount => do_remount(alloc, key, line, run, sink),
    }
}
