//! Each call that fails in turn, and the adapters over a writer, over real files and over sockets.
ghost use Rattle.std.specs.Prelude.{◌<◌};

use crate::sockets::{hand_back, link};
use game_io::{
    Disk, DiskError, Failed, FailingCall, FileDisk, Gate, HoldGate, MAX_LINKS, MemDisk, MemNet,
    MemSink, MemSource, Net, Remains, Sink, Source, StdSink, StdSource, SureDisk, SureNet,
    SureSink, SureSource, TcpNet,
};
use std::alloc::{AllocError, Global};
use std::io::{Read, Write};
use std::sync::atomic::{AtomicBool, Ordering};
use std::test::Fail;
use std::{env, fs, io, process, thread};

/// The one call of this number is to fail.
fn failing(alloc: Global, call: u32, remains: Remains) -> Result<Vec<FailingCall>, AllocError> {
    Ok(vec![in alloc; FailingCall { call, remains }]?)
}

/// Puts `ab`, `cde` and `f`, and answers how many of these failed, and the count of faults.
fn put_three(sink: &mut impl Sink) -> (u64, u64) {
    let mut failed = 0u64;
    for piece in ["ab", "cde", "f"] {
        if sink.put(piece.as_bytes()).is_err() {
            failed = failed.saturating_add(1);
        }
    }
    (failed, sink.faults())
}

/// Takes at most two bytes, and appends them to what was taken.
fn take_two(source: &mut impl Source, taken: &mut Vec<u8>) -> Result<(), AllocError> {
    let mut room = [0u8; 2];
    match source.take(&mut room) {
        Ok(count) => taken.extend_from_slice(&room[..count]),
        Err(_) => Ok(()),
    }
}

/// Takes two bytes at a time, five times.
fn take_five(source: &mut impl Source, alloc: Global) -> Result<Vec<u8>, AllocError> {
    let mut taken = Vec::new(alloc);
    for _ in 0..5 {
        take_two(source, &mut taken)?;
    }
    Ok(taken)
}

/// The letter for what a call answered: `m` missing, `f` failed, `l` too long, `n` out of memory,
/// and `done` for `Ok`.
fn letter<T: Drop>(answer: Result<T, DiskError>, done: char) -> char {
    match answer {
        Ok(_) => done,
        Err(DiskError::Missing) => 'm',
        Err(DiskError::Failed) => 'f',
        Err(DiskError::TooLong) => 'l',
        Err(DiskError::NoMemory) => 'n',
    }
}

/// Writes `b`, and reads at most three bytes of `a`.
fn write_and_read(disk: &mut impl Disk, alloc: Global) -> (char, char) {
    let written = disk.write_file(alloc, "b", b"new");
    let read = disk.read_file(alloc, "a", 3);
    (letter(written, 'w'), letter(read, 'r'))
}

/// A disk with the files `a` and `b`, in which one call is to fail.
fn failing_disk(alloc: Global, call: u32, remains: Remains) -> Result<MemDisk, AllocError> {
    let mut disk = MemDisk::new(alloc, failing(alloc, call, remains)?);
    disk.add(alloc, "a", b"old")?;
    disk.add(alloc, "b", b"before")?;
    Ok(disk)
}

/// What the file `b` holds, or `none`.
fn held(disk: &MemDisk) -> &[u8] {
    match disk.file("b") {
        Some(bytes) => bytes,
        None => b"none",
    }
}

#[test]
fn chosen_puts_fail(rt: HostRuntime) -> Result<(), Fail> {
    let rows = [
        (0, Remains::Old, "cdef"),
        (1, Remains::Nothing, "abf"),
        (1, Remains::Prefix(2), "abcdf"),
        (2, Remains::Prefix(9), "abcdef"),
    ];
    for (call, remains, want) in rows {
        let mut sink = MemSink::new(rt.alloc(), failing(rt.alloc(), call, remains)?);
        assert_eq!(rt; put_three(&mut sink), (1, 1));
        assert_eq!(rt; sink.bytes(), want.as_bytes());
    }
    assert_eq!(rt; put_three(&mut SureSink), (0, 0));
    Ok(())
}

#[test]
fn chosen_takes_fail(rt: HostRuntime) -> Result<(), Fail> {
    for call in 0..5 {
        let bytes = b"abcde".to_vec(rt.alloc())?;
        let mut source = MemSource::new(bytes, failing(rt.alloc(), call, Remains::Old)?);
        let taken = take_five(&mut source, rt.alloc())?;
        assert_eq!(rt;
            (taken.as_slice(), source.faults()),
            (b"abcde".as_slice(), 1)
        );
    }
    let mut source = SureSource::new(b"abcde".to_vec(rt.alloc())?);
    let taken = take_five(&mut source, rt.alloc())?;
    assert_eq!(rt;
        (taken.as_slice(), source.faults()),
        (b"abcde".as_slice(), 0)
    );
    Ok(())
}

#[test]
fn chosen_calls_of_a_disk_fail(rt: HostRuntime) -> Result<(), Fail> {
    let rows = [
        (0, Remains::Old, "before", ('f', 'r')),
        (0, Remains::Nothing, "none", ('f', 'r')),
        (0, Remains::Prefix(0), "", ('f', 'r')),
        (0, Remains::Prefix(2), "ne", ('f', 'r')),
        (1, Remains::Old, "new", ('w', 'f')),
    ];
    for (call, remains, left, answers) in rows {
        let mut disk = failing_disk(rt.alloc(), call, remains)?;
        assert_eq!(rt; write_and_read(&mut disk, rt.alloc()), answers);
        assert_eq!(rt; held(&disk), left.as_bytes());
        assert_eq!(rt; disk.faults(), 1);
    }
    Ok(())
}

#[test]
fn a_sure_disk_answers_by_its_files(rt: HostRuntime) -> Result<(), Fail> {
    let mut disk = SureDisk::new(rt.alloc());
    assert_eq!(rt; write_and_read(&mut disk, rt.alloc()), ('w', 'm'));
    disk.add(rt.alloc(), "a", b"four")?;
    assert_eq!(rt; write_and_read(&mut disk, rt.alloc()), ('w', 'l'));
    disk.add(rt.alloc(), "a", b"two")?;
    assert_eq!(rt; write_and_read(&mut disk, rt.alloc()), ('w', 'r'));
    Ok(())
}

/// A writer that takes two bytes at a time, which it adds to `held`, and fails at one of its calls.
#[derive(Drop)]
struct Halting<'a> {
    calls: u64,
    fails_at: u64,
    held: &'a mut Vec<u8>,
}

impl<'a> Halting<'a> {
    fn next(&mut self) -> io::Result<()> {
        let call = self.calls;
        self.calls = call.wrapping_add(1);
        if call == self.fails_at {
            return Err(io::Error::from(io::ErrorKind::BrokenPipe));
        }
        Ok(())
    }
}

impl<'a> Write for Halting<'a> {
    fn write(&mut self, buf: &[u8]) -> io::Result<usize> {
        self.next()?;
        let count = buf.len().min(2);
        self.held.extend_from_slice(&buf[..count])?;
        Ok(count)
    }

    fn flush(&mut self) -> io::Result<()> {
        self.next()
    }
}

#[test]
fn a_writer_that_fails_is_counted(rt: HostRuntime) {
    // The puts of `ab`, `cde` and `f` are two, three and two calls. A failed write leaves out what
    // it was to write, and what the same put was to write after it.
    let rows = [
        (0, "cdef"),
        (1, "abcdef"),
        (2, "abf"),
        (3, "abcdf"),
        (4, "abcdef"),
        (5, "abcde"),
        (6, "abcdef"),
        (7, "abcdef"),
    ];
    for (fails_at, text) in rows {
        let mut held = Vec::new(rt.alloc());
        let mut sink = StdSink::new(Halting {
            calls: 0,
            fails_at,
            held: &mut held,
        });
        let failed = u64::from(fails_at < 7);
        assert_eq!(rt; put_three(&mut sink), (failed, failed));
        drop(sink);
        assert_eq!(rt; held.as_slice(), text.as_bytes());
    }
}

#[test]
fn real_files_are_read_and_written(rt: HostRuntime) -> Result<(), Fail> {
    let folder = env::temp_dir(&rt)?;
    let id = process::id(rt.process());
    let name = format!(in rt.alloc(); "{}/game_io-{id}", folder.as_path().display())?;
    let mut disk = FileDisk::new(&rt);
    let answers = [
        letter(disk.read_file(rt.alloc(), &name, 3), 'r'),
        letter(disk.write_file(rt.alloc(), &name, b"four"), 'w'),
        letter(disk.read_file(rt.alloc(), &name, 3), 'r'),
        letter(disk.read_file(rt.alloc(), &name, 4), 'r'),
        letter(disk.read_file(rt.alloc(), "/", 3), 'r'),
        letter(disk.write_file(rt.alloc(), "/", b"x"), 'w'),
    ];
    assert_eq!(rt; answers, ['m', 'w', 'l', 'r', 'f', 'f']);
    assert_eq!(rt; disk.faults(), 4);
    let Ok(read) = disk.read_file(rt.alloc(), &name, 4) else {
        return Err(Fail::new("the file is not read"));
    };
    assert_eq!(rt; read.as_slice(), b"four".as_slice());
    // A shorter content leaves nothing of a longer one.
    assert_eq!(rt; letter(disk.write_file(rt.alloc(), &name, b"ab"), 'w'), 'w');
    let written = fs::read(&rt, &name)?;
    assert_eq!(rt; written.as_slice(), b"ab".as_slice());
    fs::remove_file(&rt, &name)?;
    Ok(())
}

/// The letter for what a take and a put of a link answered. A digit tells how many bytes were taken,
/// `t` and `p` that the take failed, or the put.
fn link_letter(taken: Result<usize, Failed>, put: Result<(), Failed>) -> char {
    match (taken, put) {
        (Ok(0), Ok(())) => '0',
        (Ok(1), Ok(())) => '1',
        (Ok(_), Ok(())) => '2',
        (Err(_), Ok(())) => 't',
        (_, Err(_)) => 'p',
    }
}

/// A letter for a link that is used, and how many links there are then. It takes two bytes, puts
/// `ab`, and hands the link back. `f` tells that the net failed, and `n` that it has no room.
fn use_link<N: Net>(net: &mut N) -> (char, u32) {
    let number = net.links();
    if number >= MAX_LINKS {
        return ('n', number);
    }
    let Ok((mut input, mut output)) = net.accept() else {
        return ('f', net.links());
    };
    let mut room = [0u8; 2];
    let taken = input.take(&mut room);
    let put = output.put(b"ab");
    net.take_back(number, input, output);
    (link_letter(taken, put), net.links())
}

/// One link more that is to come, of these bytes. None of its calls is to fail.
fn add_link(net: &mut MemNet, alloc: Global, bytes: &[u8]) -> Result<(), AllocError> {
    let bytes = bytes.to_vec(alloc)?;
    Ok(net.add(bytes, Vec::new(alloc), Vec::new(alloc))?)
}

/// Two links that are to come, of three bytes and of one.
fn add_two_links(net: &mut MemNet, alloc: Global) -> Result<(), AllocError> {
    add_link(net, alloc, b"abc")?;
    add_link(net, alloc, b"x")
}

/// A net with two links to come, in which one call is to fail.
fn failing_net(alloc: Global, call: u32) -> Result<MemNet, AllocError> {
    let mut net = MemNet::new(alloc, failing(alloc, call, Remains::Old)?);
    add_two_links(&mut net, alloc)?;
    Ok(net)
}

#[test]
fn chosen_calls_of_a_net_fail(rt: HostRuntime) -> Result<(), Fail> {
    let rows = [
        (0, true, [('2', 1), ('1', 2), ('0', 3)], 1),
        (1, false, [('f', 0), ('2', 1), ('1', 2)], 1),
        (2, false, [('2', 1), ('f', 1), ('1', 2)], 1),
        (3, false, [('2', 1), ('1', 2), ('f', 2)], 1),
        (4, false, [('2', 1), ('1', 2), ('0', 3)], 0),
    ];
    for (call, deaf, answers, faults) in rows {
        let mut net = failing_net(rt.alloc(), call)?;
        assert_eq!(rt; net.listen("here").is_err(), deaf);
        let used = [use_link(&mut net), use_link(&mut net), use_link(&mut net)];
        assert_eq!(rt; used, answers);
        assert_eq!(rt; net.faults(), faults);
    }
    Ok(())
}

#[test]
fn chosen_calls_of_a_link_fail(rt: HostRuntime) -> Result<(), Fail> {
    let rows = [
        (0, 1, 't', "ab", "abc", 1),
        (1, 0, 'p', "a", "c", 1),
        (0, 0, 'p', "a", "abc", 2),
        (1, 1, '2', "ab", "c", 0),
    ];
    for (take, put, letter, written, left, faults) in rows {
        let mut net = MemNet::new(rt.alloc(), Vec::new(rt.alloc()));
        let takes = failing(rt.alloc(), take, Remains::Old)?;
        let puts = failing(rt.alloc(), put, Remains::Prefix(1))?;
        net.add(b"abc".to_vec(rt.alloc())?, takes, puts)?;
        assert_eq!(rt; net.link_faults(0), 0);
        assert_eq!(rt; use_link(&mut net), (letter, 1));
        assert_eq!(rt; net.written(0), Some(written.as_bytes()));
        assert_eq!(rt; net.left(0), Some(left.as_bytes()));
        assert_eq!(rt; net.link_faults(0), faults);
    }
    Ok(())
}

#[test]
fn a_sure_net_gives_its_links(rt: HostRuntime) -> Result<(), Fail> {
    let mut net = SureNet::new(rt.alloc());
    net.add(b"abc".to_vec(rt.alloc())?)?;
    assert_eq!(rt; net.listen("here").is_ok(), true);
    let used = [use_link(&mut net), use_link(&mut net)];
    assert_eq!(rt; used, [('2', 1), ('0', 2)]);
    assert_eq!(rt; (net.faults(), net.link_faults(0)), (0, 0));
    Ok(())
}

/// Listens at a port of the loopback, and answers its address where the port was free.
fn listen_at_port<N: Net>(
    alloc: Global,
    net: &mut N,
    port: u32,
) -> Result<Option<String>, AllocError> {
    let at = format!(in alloc; "127.0.0.1:{port}")?;
    if net.listen(&at).is_err() {
        return Ok(None);
    }
    Ok(Some(at))
}

/// Listens at the first port of the loopback that is free, from this one on, and answers its address.
pub(crate) fn listen_somewhere<N: Net>(
    alloc: Global,
    net: &mut N,
    first: u32,
) -> Result<String, Fail>
    requires { first < 20_000 }
{
    for step in 0..200 {
        let port = 20_000 + (first + step) % 20_000;
        if let Some(at) = listen_at_port(alloc, net, port)? {
            return Ok(at);
        }
    }
    Err(Fail::new("no port is free"))
}

#[test]
fn links_over_tcp(rt: HostRuntime) -> Result<(), Fail> {
    let mut host = TcpNet::new(&rt);
    let mut guest = TcpNet::new(&rt);
    let first = process::id(rt.process()) % 20_000;
    let at = listen_somewhere(rt.alloc(), &mut host, first)?;
    assert_eq!(rt; (host.links(), guest.links()), (0, 0));
    let (mut host_in, mut host_out, mut guest_in, mut guest_out) = link(
        &mut host, &mut guest, &at,
    )?;
    assert_eq!(rt; guest_out.put(b"ping"), Ok(()));
    assert_eq!(rt; host_out.put(b"pong!"), Ok(()));
    let mut room = [0u8; 8];
    assert_eq!(rt; (host_in.take(&mut room), room), (Ok(4), *b"ping\0\0\0\0"));
    assert_eq!(rt; (guest_in.take(&mut room), room), (Ok(5), *b"pong!\0\0\0"));
    assert_eq!(rt; (host.links(), guest.links()), (1, 1));
    hand_back(&mut guest, 0, guest_in, guest_out);
    assert_eq!(rt; host_in.take(&mut room), Ok(0));
    hand_back(&mut host, 0, host_in, host_out);
    assert_eq!(rt; (host.link_faults(0), guest.link_faults(0)), (0, 0));
    Ok(())
}

#[test]
fn a_net_without_a_listener_fails(rt: HostRuntime) {
    let mut net = TcpNet::new(&rt);
    assert!(rt; net.accept().is_err());
    assert!(rt; net.listen("no address").is_err());
    assert_eq!(rt; (net.links(), net.faults()), (0, 2));
}

#[test]
fn a_reader_is_a_source(rt: HostRuntime) {
    let mut source = StdSource::new(b"abcde".as_slice());
    let mut room = [0u8; 2];
    assert_eq!(rt; (source.take(&mut room), room), (Ok(2), *b"ab"));
    assert_eq!(rt; (source.take(&mut room), room), (Ok(2), *b"cd"));
    assert_eq!(rt; (source.take(&mut room), room), (Ok(1), *b"ed"));
    assert_eq!(rt; (source.take(&mut room), source.faults()), (Ok(0), 0));
}

/// A reader that always fails.
#[derive(Drop)]
struct Broken;

impl Read for Broken {
    fn read(&mut self, _buf: &mut [u8]) -> io::Result<usize> {
        Err(io::Error::from(io::ErrorKind::BrokenPipe))
    }
}

#[test]
fn a_reader_that_fails_is_counted(rt: HostRuntime) {
    let mut source = StdSource::new(Broken);
    let mut room = [7u8; 2];
    assert_eq!(rt; source.take(&mut room), Err(Failed));
    assert_eq!(rt; (source.faults(), room), (1, [7; 2]));
}

/// A reader of five bytes whose first calls are interrupted.
#[derive(Drop)]
struct Interrupted {
    times: u32,
}

impl Read for Interrupted {
    fn read(&mut self, buf: &mut [u8]) -> io::Result<usize> {
        if self.times > 0 {
            self.times -= 1;
            return Err(io::Error::from(io::ErrorKind::Interrupted));
        }
        let mut bytes = b"abcde".as_slice();
        bytes.read(buf)
    }
}

#[test]
fn a_reader_that_is_interrupted_is_read_again(rt: HostRuntime) {
    let mut source = StdSource::new(Interrupted { times: 3 });
    let mut room = [0u8; 2];
    assert_eq!(rt; (source.take(&mut room), room), (Ok(2), *b"ab"));
    assert_eq!(rt; source.faults(), 0);
}

/// A client that comes to a gate, and whether the other had come before it was let through.
#[derive(Drop)]
struct Comer {
    client: u8,
    other_came: bool,
}

/// How many turns client 1 comes later than client 0.
const LATE_TURNS: u32 = 20_000;

/// Client 0 comes to the gate with its play of a frame. Client 1 comes later, with what client 0
/// waits for: its play of frame 0, or the answer to the put of that play.
fn come(gate: &HoldGate, came: &AtomicBool, frame: u32, comer: &mut Comer) {
    if comer.client == 0 {
        gate.before(0, frame);
        comer.other_came = came.load(Ordering::SeqCst);
        return;
    }
    for _turn in 0..LATE_TURNS {
        thread::yield_now();
    }
    came.store(true, Ordering::SeqCst);
    if frame == 0 {
        gate.before(1, 0);
    } else {
        gate.after(1, 0);
    }
}

#[test]
fn a_gate_holds_until_the_other_comes(rt: HostRuntime) {
    for frame in 0..2 {
        let gate = HoldGate::new();
        let came = AtomicBool::new(false);
        let mut comers = [
            Comer {
                client: 0,
                other_came: false,
            },
            Comer {
                client: 1,
                other_came: false,
            },
        ];
        let each = |_: usize, comer: &mut Comer| come(&gate, &came, frame, comer);
        thread::for_each_mut(&rt, &mut comers, 2, &each);
        assert!(rt; comers[0].other_came, "at frame {frame}");
        assert!(rt; !gate.timed_out());
    }
}
