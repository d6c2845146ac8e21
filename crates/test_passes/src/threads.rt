//! Sessions of masters at one port, each in a thread of its own, and what the journal of the closed line shows of each.

ghost use Rattle.std.specs.Prelude.{◌≡◌, ℕ, ◌++◌, List, All, IfOk, OnOk, None, count_by, is_some, length, map};
ghost use Rattle.std.specs.List.{AllZip, filter_map};
ghost use Rattle.std.specs.Option.{option_to_list};
ghost use Rattle.atomic_table.specs.Seated.{TableId};
ghost use Rattle.dp_line.specs.World.{description_of, opening_fault};
ghost use Rattle.dp_shared.specs.Numbers.{AllDiffer};
ghost use Rattle.dp_shared.specs.Passes.{table_of};
ghost use Rattle.dp_shared.specs.declared.claim_view.ClaimView.{ClaimView};
ghost use Rattle.dp_sessions.specs.Ended.{IsSessionOf};
ghost use Rattle.dp_sessions.specs.Pools.{IsSeatAt};
ghost use Rattle.dp_sessions.specs.Sessions.{Streams};
ghost use Rattle.test_passes.specs.Threads.{HaveAllEntries, IsInJournal, IsServed, passes_in};

use dp_line::{Device, LineSpec};
use dp_sessions::laws::a_master_has_its_entries;
use dp_sessions::{Gate, OpenGate, Port, Session, SessionEnd, Uncounted, serve_session};
use dp_shared::laws::the_passes_have_all_entries;
use dp_shared::{Claims, Closed, Line, ReturnedPass, WorkerSeat};
use std::alloc::{AllocError, Global};
use std::io::{Read, Write};
use std::snapshot::Snapshot;
use std::sync::Wait;
use std::test::Fail;
use std::thread;
use std::thread::Threads;
use test_fixtures::line_specs::ample_line;
use test_fixtures::rows::octets_of;

/// The reader and the writer of a master.
#[derive(Drop)]
struct Client<R, W> {
    reader: R,
    writer: W,
}

/// A session to serve: the seat that claims the master's address, and the master.
#[derive(Drop)]
struct Task<R, W> {
    seat: WorkerSeat,
    client: Client<R, W>,
}

/// A session that has ended.
#[derive(Drop)]
struct Ended<R, W> {
    end: SessionEnd,
    /// The pass that served it, which only contracts see; None if it was rejected.
    pass: Option<Snapshot<ReturnedPass>>,
    client: Client<R, W>,
}

/// A session that has ended, and the pass that served it; None if it was rejected.
#[derive(Drop)]
struct Served<R, W> {
    ended: Ended<R, W>,
    returned_pass: Option<ReturnedPass>,
}

/// Something at which threads serve sessions. It stands for a port when threads start, because the checker proves that
/// threads may share a port only if nothing else is passed to them.
trait Serve<T, D> {
    /// The task may be served here.
    ghost accepts: { Self → T → Type 0 };

    /// The task was served here, in at most this number of reads.
    ghost serves: { Self → ℕ → T → D → Type 0 };

    fn serve<H: Wait, G: Gate>(&self, rt: &H, task: T, gate: &G, turns: u32) -> D
        requires { Self.accepts self.now task }
        ensures { Self.serves self.now turns task result };
}

impl<R: Read, W: Write> Serve<Task<R, W>, Served<R, W>> for Port {
    ghost use Rattle.dp_shared.specs.Passes.{table_of};
    ghost use Rattle.dp_sessions.specs.Pools.{IsSeatAt};
    ghost use Rattle.test_passes.specs.Threads.{IsServed};

    ghost accepts = { λ port task. IsSeatAt port.claims task.seat };

    ghost serves = { λ port turns task served. IsServed (table_of port.line) port.claims.masters turns
        (record { left = R.remaining task.client.reader; left_after = R.remaining served.ended.client.reader; written = W.contents task.client.writer; written_after = W.contents served.ended.client.writer })
        served.ended.end served.ended.pass served.returned_pass };

    fn serve<H: Wait, G: Gate>(
        &self,
        rt: &H,
        task: Task<R, W>,
        gate: &G,
        turns: u32,
    ) -> Served<R, W> {
        let Task { mut seat, client } = task;
        let Client {
            mut reader,
            mut writer,
        } = client;
        let session = serve_session::<H, R, Uncounted, W, G>(
            rt,
            &mut reader,
            &mut writer,
            self,
            &mut seat,
            gate,
            turns,
        );
        served_as(session, Client { reader, writer })
    }
}

/// Returns the session of a client, with the pass that served it.
fn served_as<R, W>(session: Session, client: Client<R, W>) -> Served<R, W>
    ensures client { result.ended.client ≡ client }
    ensures session { (table : TableId) (masters : List ℕ) (turns : ℕ) (streams : Streams) (before after : ClaimView)
        → IsSessionOf table masters turns streams before after session → IsServed table masters turns streams result.ended.end result.ended.pass result.returned_pass }
{
    match session {
        Session::Accepted { end, returned_pass } => Served {
            ended: Ended {
                end,
                pass: Some(Snapshot::of(&returned_pass)),
                client,
            },
            returned_pass: Some(returned_pass),
        },
        Session::Rejected { end, .. } => Served {
            ended: Ended {
                end,
                pass: None,
                client,
            },
            returned_pass: None,
        },
    }
}

/// Serves each task in a thread of its own.
fn serve_each<
    P: Serve<T, D> + Sync,
    T: Send + Drop,
    D: Send + Drop,
    H: Threads + Wait + Sync,
    G: Gate + Sync,
>(rt: &H, port: &P, tasks: Vec<T>, gate: &G, turns: u32) -> Result<Vec<D>, AllocError>
    requires { All (λ task. P.accepts port.now task) tasks.items }
    ensures { IfOk result (λ served. AllZip (P.serves port.now turns) tasks.items served.items) }
{
    let served = thread::map_vec(rt, tasks, &|task| port.serve(rt, task, gate, turns))?;
    Ok(served)
}

/// Serves each task at a port, in a thread of its own.
fn serve_all<
    H: Threads + Wait + Sync,
    R: Read + Send + Drop,
    W: Write + Send + Drop,
    G: Gate + Sync,
>(
    rt: &H,
    port: &Port,
    tasks: Vec<Task<R, W>>,
    gate: &G,
    turns: u32,
) -> Result<Vec<Served<R, W>>, AllocError>
    requires { All (λ task. IsSeatAt port.now.claims task.seat) tasks.items }
    ensures { IfOk result (λ v. AllZip (λ task served. IsServed (table_of port.now.line) port.now.claims.masters turns
        (record { left = R.remaining task.client.reader; left_after = R.remaining served.ended.client.reader; written = W.contents task.client.writer; written_after = W.contents served.ended.client.writer })
        served.ended.end served.ended.pass served.returned_pass) tasks.items v.items) }
{
    serve_each(rt, port, tasks, gate, turns)
}

/// Adds a pass to the list, if there is one.
fn add(
    passes: &mut Vec<ReturnedPass>,
    returned_pass: Option<ReturnedPass>,
) -> Result<(), AllocError>
    ensures { OnOk result (passes.new.items ≡ passes.old.items ++ option_to_list returned_pass) }
{
    if let Some(returned_pass) = returned_pass {
        passes.push(returned_pass)?;
    }
    Ok(())
}

/// Returns the sessions, and the passes that served them.
fn parted<R: Drop, W: Drop>(
    alloc: Global,
    served: Vec<Served<R, W>>,
) -> Result<(Vec<Ended<R, W>>, Vec<ReturnedPass>), AllocError>
    ensures ended { IfOk result (λ parts. parts.0.items ≡ map (λ one. one.ended) served.items) }
    ensures returned_pass { IfOk result (λ parts. parts.1.items ≡ filter_map (λ one. one.returned_pass) served.items) }
{
    let mut ended = Vec::new(alloc);
    let mut passes = Vec::new(alloc);
    for one in served {
        ended.push(one.ended)?;
        add(&mut passes, one.returned_pass)?;
    }
    Ok((ended, passes))
}

/// Serves each task at a port, in a thread of its own, and closes the line with the passes of all sessions. Fails if
/// memory is refused or another pass is out.
///
/// By the journal of the closed line, a session that was accepted wrote E5 and then the replies of the entries under
/// the number of its pass, in order. A session that was rejected has no pass, and wrote nothing. The numbers of the
/// passes differ. If no other pass was opened on the line, the journal has no other entries except the halt at the last
/// place.
fn serve_and_close_all<
    H: Threads + Wait + Sync,
    R: Read + Send + Drop,
    W: Write + Send + Drop,
    G: Gate + Sync,
>(
    rt: &H,
    alloc: Global,
    port: Port,
    tasks: Vec<Task<R, W>>,
    gate: &G,
    turns: u32,
) -> Result<(Closed, Vec<Ended<R, W>>), Fail>
    requires { All (λ task. IsSeatAt port.claims task.seat) tasks.items }
    ensures each { IfOk result (λ r. AllZip (λ task ended. IsInJournal r.0 turns
        (record { left = R.remaining task.client.reader; left_after = R.remaining ended.client.reader; written = W.contents task.client.writer; written_after = W.contents ended.client.writer })
        ended.end ended.pass) tasks.items r.1.items) }
    ensures apart { IfOk result (λ r. AllDiffer (map (λ pass. pass.number) (passes_in (map (λ ended. ended.pass) r.1.items)))) }
    ensures all { IfOk result (λ r. length (passes_in (map (λ ended. ended.pass) r.1.items)) ≡ r.0.last
        → HaveAllEntries r.0 (passes_in (map (λ ended. ended.pass) r.1.items))) }
{
    a_master_has_its_entries();
    the_passes_have_all_entries();
    let served = serve_all(rt, &port, tasks, gate, turns)?;
    let (ended, mut passes) = parted(alloc, served)?;
    match port.line.close_with(Vec::new(alloc), &mut passes) {
        Ok(closed) => Ok((closed, ended)),
        Err(_) => Err(Fail::new("a pass is out")),
    }
}

/// Returns a task for each client, with a seat of its own.
fn tasks_of<R: Drop, W: Drop>(
    alloc: Global,
    claims: &Claims,
    mut seats: Vec<WorkerSeat>,
    clients: Vec<Client<R, W>>,
) -> Result<Vec<Task<R, W>>, Fail>
    requires { All (IsSeatAt claims.now) seats.items }
    ensures seats { IfOk result (λ tasks. All (λ task. IsSeatAt claims.now task.seat) tasks.items) }
    ensures clients { IfOk result (λ tasks. map (λ task. task.client) tasks.items ≡ clients.items) }
{
    let mut tasks = Vec::new(alloc);
    for client in clients {
        let Some(seat) = seats.pop() else {
            return Err(Fail::new("no seat"));
        };
        tasks.push(Task { seat, client })?;
    }
    Ok(tasks)
}

/// Returns how many sessions were accepted.
fn accepted<R, W>(ended: &[Ended<R, W>]) -> usize
    ensures { result ≡ count_by (λ one. is_some one.pass) ended.now }
{
    ended.iter().filter(|one| one.pass.is_some()).count()
}

/// Opens a line, serves each client in a thread of its own, and closes the line. Fails if memory is refused.
///
/// By the journal of the closed line, a session that was accepted wrote E5 and then the replies of the entries under
/// the number of its pass, in order. A session that was rejected has no pass, and wrote nothing. The numbers of the
/// passes differ. The journal has no other entries except the halt at the last place.
fn open_and_serve_all<
    H: Threads + Wait + Sync,
    R: Read + Send + Drop,
    W: Write + Send + Drop,
    G: Gate + Sync,
>(
    rt: &H,
    alloc: Global,
    spec: &LineSpec,
    clients: Vec<Client<R, W>>,
    gate: &G,
    turns: u32,
) -> Result<(Closed, Vec<Ended<R, W>>), Fail>
    requires { opening_fault (description_of spec.now) ≡ None }
    ensures each { IfOk result (λ r. AllZip (λ client ended. IsInJournal r.0 turns
        (record { left = R.remaining client.reader; left_after = R.remaining ended.client.reader; written = W.contents client.writer; written_after = W.contents ended.client.writer })
        ended.end ended.pass) clients.items r.1.items) }
    ensures apart { IfOk result (λ r. AllDiffer (map (λ pass. pass.number) (passes_in (map (λ ended. ended.pass) r.1.items)))) }
    ensures all { IfOk result (λ r. HaveAllEntries r.0 (passes_in (map (λ ended. ended.pass) r.1.items))) }
{
    let Ok(workers) = u8::try_from(clients.len()) else {
        return Err(Fail::new("too many clients"));
    };
    let (claims, seats) = Claims::open(alloc, spec, workers)?;
    let tasks = tasks_of(alloc, &claims, seats, clients)?;
    let line = Line::open(alloc, spec)?;
    let port = Port { line, claims };
    let (closed, ended) = serve_and_close_all(rt, alloc, port, tasks, gate, turns)?;
    if closed.opened() as usize != accepted(&ended) {
        return Err(Fail::new("another pass was opened"));
    }
    Ok((closed, ended))
}

/// Returns a client for each stream of octets.
fn clients_of<'a>(
    alloc: Global,
    streams: &[&'a [u8]],
) -> Result<Vec<Client<&'a [u8], Vec<u8>>>, AllocError> {
    let mut clients = Vec::new(alloc);
    for octets in streams {
        clients.push(Client {
            reader: *octets,
            writer: Vec::new(alloc),
        })?;
    }
    Ok(clients)
}

/// The numbers of sessions that were accepted, of passes that were opened, and of the entries of the closed line.
#[derive(Drop)]
struct Counts {
    accepted: usize,
    opened: u32,
    entries: u32,
}

/// Serves these streams on a fresh line, each in a thread of its own.
fn counts_of_threads<H: Threads + Wait + Sync>(
    rt: &H,
    alloc: Global,
    streams: &[&[u8]],
) -> Result<Counts, Fail> {
    let spec = ample_line(alloc, 1, Device::Still)?;
    let clients = clients_of(alloc, streams)?;
    let (closed, ended) = open_and_serve_all(rt, alloc, &spec, clients, &OpenGate, 9)?;
    Ok(Counts {
        accepted: accepted(&ended),
        opened: closed.opened(),
        entries: closed.book().count(),
    })
}

/// The frames of two masters are answered, and a session whose address is no master's is rejected.
#[test]
fn three_sessions_in_threads(rt: HostRuntime) -> Result<(), Fail> {
    let first = octets_of("016805056885816d3c3eed16")?;
    let second = octets_of("02100902495416100502495016")?;
    let third = octets_of("09100502495016")?;
    let counts = counts_of_threads(&rt, rt.alloc(), &[&first, &second, &third])?;
    assert!(rt; counts.accepted == 2 && counts.opened == 2 && counts.entries == 3);
    Ok(())
}
