//! Each call through its export, and each code but that of memory that runs out.
use crate::matches;
use crate::tests::Call as C;
use c_matches::{CAlarm, CPacket, CPlay, CTerms};
use c_objects::{
    AHEAD, BAD_ARGUMENT, BAD_BYTES, CONFLICT, FAULT, FULL, IGNORED, LEFT, NO_FRAME, NO_ROOM, NONE,
    NOT_YET, OK, OVER, Object, PAST, REFUSED, REPEAT, TOO_EARLY, WRONG_OBJECT,
};
use c_worlds::{CActor, CCell, CFault, CHead, CItem, CKind, CRoute};
use std::alloc::{AllocError, Global};
use std::test::Fail;

/// A call, with its numbers. What a call is made of, C's objects and arrays, is on the desk.
#[derive(Clone, Copy, Debug)]
enum Call {
    Abi,
    Free,
    SetupCreate,
    SetupAdd(u32),
    SetupRead,
    SetupShare,
    SetupKind(u32),
    SetupKindName(u32, usize),
    SetupTerrain(usize),
    WorldCreate(u32),
    WorldStep,
    ReadHead,
    ReadActors(usize),
    ReadItems(u32, usize),
    ReadOre(usize),
    Seen(u32, usize),
    FindRoute(u32, u32, usize),
    Bot(u32),
    Hello,
    Greeted,
    GreetedAgain,
    Welcome(u32),
    Welcomed,
    WelcomedAgain,
    PeerCreate(u32),
    PeerDeliver,
    PeerTick,
    PeerSeal,
    PeerReport,
    ServerCreate(u32),
    ServerUp(u32),
    ServerUpAgain,
    ServerDrop(u32),
    ServerEntry(u32, u32),
    ServerTick,
    ServerAlarm(u32),
}

/// A call, its bytes, the code that it answers, and what it tells: 9 for nothing.
type Row = (Call, &'static [u8], u32, u64);

const RULES: &[u8] =
    b"jeep:\n\tMobile:\n\t\tSpeed: 128\n\t\tTurnSpeed: 64\n\tRevealsShroud:\n\t\tRange: 1c0\n";

const MAP: &[u8] = b"Size: 3,2\nActors:\n\ta1: jeep\n\t\tOwner: 0\n\t\tLocation: 0,0\n";

/// A setup, and a world of two clients.
static WORLDS: [Row; 49] = [
    (C::Abi, b"", 1, 9),
    (C::SetupAdd(0), RULES, WRONG_OBJECT, 9),
    (C::SetupCreate, b"", OK, 9),
    (C::SetupCreate, b"", WRONG_OBJECT, 9),
    (C::SetupAdd(2), RULES, BAD_ARGUMENT, 9),
    (C::SetupAdd(0), RULES, OK, 9),
    (C::SetupAdd(1), MAP, OK, 9),
    (C::SetupAdd(1), MAP, FULL, 9),
    (C::SetupShare, b"", WRONG_OBJECT, 9),
    (C::SetupTerrain(6), b"", WRONG_OBJECT, 9),
    (C::WorldCreate(2), b"", WRONG_OBJECT, 9),
    (C::SetupRead, b"", OK, 9),
    (C::SetupRead, b"", WRONG_OBJECT, 9),
    (C::SetupShare, b"", OK, 9),
    (C::SetupShare, b"", WRONG_OBJECT, 9),
    (C::SetupKind(0), b"", OK, 128),
    (C::SetupKind(1), b"", NONE, 9),
    (C::SetupKindName(0, 4), b"", OK, 4),
    (C::SetupKindName(0, 3), b"", NO_ROOM, 4),
    (C::SetupKindName(1, 4), b"", NONE, 9),
    (C::SetupTerrain(6), b"", OK, 306),
    (C::SetupTerrain(5), b"", NO_ROOM, 306),
    (C::WorldCreate(0), b"", BAD_ARGUMENT, 9),
    (C::WorldCreate(17), b"", BAD_ARGUMENT, 9),
    (C::WorldCreate(2), b"", OK, 9),
    (C::WorldCreate(2), b"", WRONG_OBJECT, 9),
    (C::WorldStep, b"\x01\0", BAD_BYTES, 9),
    (
        C::WorldStep,
        b"\x01\x01\x01\x01\0\0\0\x02\x01\0\x01\0",
        OK,
        9,
    ),
    (C::ReadHead, b"", OK, 1),
    (C::ReadActors(1), b"", OK, 1),
    (C::ReadActors(0), b"", NO_ROOM, 1),
    // Its way to the far corner.
    (C::ReadItems(1, 2), b"", OK, 1),
    (C::ReadItems(1, 0), b"", NO_ROOM, 1),
    (C::ReadItems(2, 2), b"", NONE, 9),
    (C::ReadOre(6), b"", OK, 6),
    (C::ReadOre(5), b"", NO_ROOM, 6),
    // It still turns at 0,0, and sees the cells to the east and the south.
    (C::Seen(0, 6), b"", OK, 30652),
    (C::Seen(1, 6), b"", OK, 30600),
    (C::Seen(0, 5), b"", NO_ROOM, 30600),
    (C::Seen(2, 6), b"", BAD_ARGUMENT, 900),
    // A step aslant for 14, and one to the east for 10.
    (C::FindRoute(0, 2, 9), b"", OK, 243),
    (C::FindRoute(0, 2, 2), b"", NO_ROOM, 243),
    (C::FindRoute(0, 3, 9), b"", BAD_ARGUMENT, 9),
    (C::FindRoute(1, 2, 9), b"", BAD_ARGUMENT, 9),
    (C::Bot(1), b"", OK, 2),
    (C::Bot(2), b"", BAD_ARGUMENT, 9),
    (C::WorldStep, b"\x01\0\0", OK, 9),
    (C::WorldStep, b"\x01\0\x01\0", BAD_BYTES, 9),
    (C::ReadHead, b"", OK, 2),
];

/// A match of two clients: its greetings, the peer of client 1, and the server.
static MATCHES: [Row; 56] = [
    (C::Hello, b"", OK, 13),
    (C::GreetedAgain, b"", OK, 9),
    (C::Greeted, b"\x01\0\x04", REFUSED, 3),
    (C::Greeted, b"\x01\0", BAD_BYTES, 9),
    (C::Welcome(0), b"", BAD_ARGUMENT, 9),
    (C::Welcome(2), b"", OK, 10),
    (C::WelcomedAgain, b"", OK, 1),
    (C::Welcomed, b"\x02\0\x12\x02", REFUSED, 2),
    (C::Welcomed, b"\x02\0\x12", BAD_BYTES, 9),
    (C::PeerCreate(2), b"", BAD_ARGUMENT, 9),
    (C::PeerCreate(1), b"", OK, 9),
    (C::PeerCreate(1), b"", WRONG_OBJECT, 9),
    (C::PeerReport, b"", NONE, 9),
    (C::PeerTick, b"", NOT_YET, 0),
    (C::PeerDeliver, b"\x07\0\x13\0\0\0\0\0\0", OK, 9),
    (C::PeerDeliver, b"\x07\0\x13\0\0\0\0\0\0", REPEAT, 9),
    (
        C::PeerDeliver,
        b"\x09\0\x13\0\0\0\0\0\x01\x08\x01",
        CONFLICT,
        9,
    ),
    (C::PeerDeliver, b"\x07\0\x13\0\0\0\x04\0\0", NO_FRAME, 9),
    (C::PeerDeliver, b"\x07\0\x13\0\x03\0\0\0\0", OK, 9),
    (C::PeerDeliver, b"\x06\0\x14\0\x02\0\0\0", PAST, 3),
    (C::PeerDeliver, b"\x02\0\x12\x01", IGNORED, 9),
    (C::PeerDeliver, b"\x02\0\x12", BAD_BYTES, 9),
    (C::PeerTick, b"", NOT_YET, 1),
    (C::PeerSeal, b"\x01", BAD_BYTES, 9),
    (C::PeerSeal, b"\x01\0", OK, 8),
    (C::PeerSeal, b"\x01\0", OK, 8),
    (C::PeerSeal, b"\x01\0", TOO_EARLY, 9),
    (C::PeerDeliver, b"\x07\0\x13\x01\0\0\0\0\0", OK, 9),
    (C::PeerTick, b"", OK, 0),
    (C::PeerReport, b"", OK, 15),
    (C::PeerDeliver, b"\x06\0\x14\x01\x01\0\0\0", OK, 9),
    (C::PeerSeal, b"\x01\0", LEFT, 9),
    (C::ServerCreate(0), b"", BAD_ARGUMENT, 9),
    (C::ServerCreate(2), b"", OK, 9),
    (C::ServerCreate(2), b"", WRONG_OBJECT, 9),
    (C::ServerUp(2), b"\x06\0\x02\0\0\0\0\0", BAD_ARGUMENT, 9),
    (C::ServerUp(0), b"\x06\0\x02\x01\0\0\0\0", AHEAD, 0),
    (C::ServerUp(0), b"\x06\0\x02\0\0\0\0\0", OK, 9),
    (C::ServerUp(0), b"\x06\0\x02\0\0\0\0\0", REPEAT, 9),
    (
        C::ServerUp(0),
        b"\x08\0\x02\0\0\0\0\x01\x08\x01",
        CONFLICT,
        9,
    ),
    (C::ServerUp(0), b"\x0d\0\x03\0\0\0\0\0\0\0\0\0\0\0\0", OK, 9),
    (
        C::ServerUp(0),
        b"\x0d\0\x03\0\0\x04\0\0\0\0\0\0\0\0\0",
        NO_FRAME,
        9,
    ),
    (C::ServerUp(0), b"\x01\0", BAD_BYTES, 9),
    (C::ServerTick, b"", NOT_YET, 1),
    (C::ServerAlarm(0), b"", NONE, 9),
    (C::ServerDrop(1), b"", OK, 0),
    (C::ServerDrop(1), b"", LEFT, 0),
    (C::ServerTick, b"", OK, 0),
    (C::ServerAlarm(0), b"", OK, 0),
    (C::ServerEntry(0, 0), b"", OK, 9),
    (C::ServerEntry(0, 1), b"", NONE, 9),
    (C::Hello, b"", OK, 13),
    (C::ServerUpAgain, b"", IGNORED, 9),
    (C::ServerUp(0), b"\x01\0\x04", OK, 1),
    (C::ServerTick, b"", OVER, 9),
    (C::Free, b"", OK, 9),
];

/// Without objects, and a fault of rules.
static NOTHING: [Row; 31] = [
    (C::SetupAdd(0), RULES, WRONG_OBJECT, 9),
    (C::SetupRead, b"", WRONG_OBJECT, 9),
    (C::SetupKind(0), b"", WRONG_OBJECT, 9),
    (C::SetupKindName(0, 4), b"", WRONG_OBJECT, 9),
    (C::SetupTerrain(6), b"", WRONG_OBJECT, 9),
    (C::WorldCreate(2), b"", WRONG_OBJECT, 9),
    (C::WorldStep, b"\x01\0\x01\0", WRONG_OBJECT, 9),
    (C::ReadHead, b"", WRONG_OBJECT, 9),
    (C::ReadActors(1), b"", WRONG_OBJECT, 9),
    (C::ReadItems(1, 1), b"", WRONG_OBJECT, 9),
    (C::ReadOre(6), b"", WRONG_OBJECT, 9),
    (C::Seen(0, 6), b"", WRONG_OBJECT, 900),
    (C::FindRoute(0, 2, 9), b"", WRONG_OBJECT, 9),
    (C::Bot(0), b"", WRONG_OBJECT, 9),
    (C::Hello, b"", WRONG_OBJECT, 9),
    (C::Greeted, b"\x01\0\x04", WRONG_OBJECT, 9),
    (C::PeerCreate(1), b"", WRONG_OBJECT, 9),
    (C::PeerDeliver, b"\x02\0\x12\x01", WRONG_OBJECT, 9),
    (C::PeerTick, b"", WRONG_OBJECT, 9),
    (C::PeerSeal, b"\x01\0", WRONG_OBJECT, 9),
    (C::PeerReport, b"", WRONG_OBJECT, 9),
    (C::ServerCreate(2), b"", WRONG_OBJECT, 9),
    (C::ServerUp(0), b"\x01\0\x04", WRONG_OBJECT, 9),
    (C::ServerDrop(0), b"", WRONG_OBJECT, 9),
    (C::ServerEntry(0, 0), b"", WRONG_OBJECT, 9),
    (C::ServerTick, b"", WRONG_OBJECT, 9),
    (C::ServerAlarm(0), b"", WRONG_OBJECT, 9),
    (C::SetupCreate, b"", OK, 9),
    (C::SetupAdd(0), b"a:\n\t\t\tb:\n", OK, 9),
    (C::SetupRead, b"", FAULT, 2),
    (C::Free, b"", OK, 9),
];

/// What C has: its objects, and what calls wrote.
#[derive(Drop)]
struct Desk {
    alloc: Global,
    setup: Object,
    world: Object,
    peer: Object,
    server: Object,
    shared: Object,
    packet: CPacket,
    told: u64,
}

fn no_actor() -> CActor {
    CActor {
        id: 0,
        kind: 0,
        owner: 0,
        x: 0,
        y: 0,
        facing: 0,
        dir: 0,
        progress: 0,
        health: 0,
        load: 0,
        reload: 0,
        acts: 0,
        doing: 0,
        builds: 0,
    }
}

fn no_item() -> CItem {
    CItem {
        what: 0,
        x: 0,
        y: 0,
        id: 0,
        turns: 0,
        waits: 0,
    }
}

fn no_head() -> CHead {
    CHead {
        hash: 0,
        drawn: 0,
        frames: 9,
        turns: 0,
        seed: 0,
        next_id: 0,
        pace: 0,
        clients: 0,
        actors: 0,
        width: 0,
        height: 0,
        cash: [0; 16],
        gone: [0; 16],
    }
}

fn no_kind() -> CKind {
    CKind {
        traits: 0,
        hp: 0,
        cost: 0,
        speed: 9,
        turn: 0,
        costs: [0; 4],
        range: 0,
        damage: 0,
        spread: 0,
        reload: 0,
        capacity: 0,
        load_delay: 0,
        unload_delay: 0,
        value: 0,
        duration: 0,
        sight: 0,
    }
}

/// A length, as a call tells it.
fn wide(count: usize) -> u64 {
    count as u64
}

/// A number times another, and a length.
fn joined(first: u32, times: u64, count: usize) -> u64 {
    u64::from(first)
        .wrapping_mul(times)
        .wrapping_add(wide(count))
}

/// Bytes of 0 and 1 as a binary number.
fn binary(bytes: &[u8]) -> u64 {
    let mut number: u64 = 0;
    for byte in bytes {
        number = number.wrapping_mul(2).wrapping_add(u64::from(*byte));
    }
    number
}

/// So many bytes.
fn bytes_of(alloc: Global, places: usize) -> Result<Vec<u8>, AllocError> {
    let mut bytes = Vec::new(alloc);
    bytes.resize(places, 0)?;
    Ok(bytes)
}

impl Desk {
    fn empty(alloc: Global) -> Desk {
        Desk {
            alloc,
            setup: Object::empty(),
            world: Object::empty(),
            peer: Object::empty(),
            server: Object::empty(),
            shared: Object::empty(),
            packet: CPacket {
                len: 9,
                bytes: [0; 260],
            },
            told: 9,
        }
    }

    fn setup_read(&mut self) -> u32 {
        let mut at = CFault {
            cause: 9,
            file: 0,
            place: 0,
        };
        let code = crate::lockstep_setup_read(&mut self.setup, self.alloc, &mut at);
        self.told = u64::from(at.cause);
        code
    }

    /// It tells the speed.
    fn setup_kind(&mut self, kind: u32) -> u32 {
        let mut out = no_kind();
        let code = crate::lockstep_setup_kind(&mut self.setup, self.alloc, kind, &mut out);
        self.told = u64::from(out.speed);
        code
    }

    fn setup_kind_name(&mut self, kind: u32, places: usize) -> Result<u32, AllocError> {
        let mut out = bytes_of(self.alloc, places)?;
        let mut needed = 9;
        let code = crate::lockstep_setup_kind_name(
            &mut self.setup,
            self.alloc,
            kind,
            out.as_mut_slice(),
            &mut needed,
        );
        self.told = wide(needed);
        Ok(code)
    }

    /// It tells the columns times 100, and the cells.
    fn setup_terrain(&mut self, places: usize) -> Result<u32, AllocError> {
        let mut out = bytes_of(self.alloc, places)?;
        let mut width = 0;
        let mut needed = 9;
        let code = crate::lockstep_setup_terrain(
            &mut self.setup,
            self.alloc,
            &mut width,
            out.as_mut_slice(),
            &mut needed,
        );
        self.told = joined(width, 100, needed);
        Ok(code)
    }

    fn world_create(&mut self, clients: u32) -> u32 {
        crate::lockstep_world_create(&mut self.world, &mut self.setup, self.alloc, 7, clients)
    }

    fn read_head(&mut self) -> u32 {
        let mut out = no_head();
        let code = crate::lockstep_read_head(&mut self.world, self.alloc, &mut out);
        self.told = u64::from(out.frames);
        code
    }

    fn read_actors(&mut self, places: usize) -> Result<u32, AllocError> {
        let mut out = Vec::new(self.alloc);
        for _ in 0..places {
            out.push(no_actor())?;
        }
        let mut needed = 9;
        let code = crate::lockstep_read_actors(
            &mut self.world,
            self.alloc,
            out.as_mut_slice(),
            &mut needed,
        );
        self.told = wide(needed);
        Ok(code)
    }

    fn read_items(&mut self, id: u32, places: usize) -> Result<u32, AllocError> {
        let mut out = Vec::new(self.alloc);
        for _ in 0..places {
            out.push(no_item())?;
        }
        let mut needed = 9;
        let code = crate::lockstep_read_items(
            &mut self.world,
            self.alloc,
            id,
            out.as_mut_slice(),
            &mut needed,
        );
        self.told = wide(needed);
        Ok(code)
    }

    fn read_ore(&mut self, places: usize) -> Result<u32, AllocError> {
        let mut out = bytes_of(self.alloc, places)?;
        let mut needed = 9;
        let code = crate::lockstep_read_ore(
            &mut self.world,
            self.alloc,
            out.as_mut_slice(),
            &mut needed,
        );
        self.told = wide(needed);
        Ok(code)
    }

    /// It tells the columns times 10,000, the cells times 100, and the bytes by binary places.
    fn seen(&mut self, client: u32, places: usize) -> Result<u32, AllocError> {
        let mut out = bytes_of(self.alloc, places)?;
        let mut width = 0;
        let mut needed = 9;
        let code = crate::lockstep_seen(
            &mut self.world,
            self.alloc,
            client,
            &mut width,
            out.as_mut_slice(),
            &mut needed,
        );
        let told = joined(width, 100, needed);
        self.told = told.wrapping_mul(100).wrapping_add(binary(out.as_slice()));
        Ok(code)
    }

    /// It tells the cost times 10, and the cells.
    fn find_route(&mut self, kind: u32, to_x: u32, places: usize) -> Result<u32, AllocError> {
        let mut out = Vec::new(self.alloc);
        for _ in 0..places {
            out.push(CCell { x: 0, y: 0 })?;
        }
        let mut route = CRoute { cost: 0, count: 9 };
        let code = crate::lockstep_find_route(
            &mut self.world,
            self.alloc,
            kind,
            0,
            0,
            to_x,
            1,
            out.as_mut_slice(),
            &mut route,
        );
        self.told = joined(route.cost, 10, route.count);
        Ok(code)
    }

    /// It tells the length of the play.
    fn bot(&mut self, client: u32) -> u32 {
        let mut out = CPlay {
            len: 9,
            bytes: [0; 164],
        };
        let code = matches::lockstep_bot(&mut self.world, self.alloc, client, &mut out);
        self.tell(code, out.len)
    }

    /// It tells the length of the packet that was written.
    fn wrote(&mut self, code: u32) -> u32 {
        if code == OK {
            self.told = u64::from(self.packet.len);
        }
        code
    }

    /// What the call told.
    fn tell(&mut self, code: u32, told: u32) -> u32 {
        self.told = u64::from(told);
        code
    }

    fn hello(&mut self) -> u32 {
        let code = matches::lockstep_hello(&mut self.setup, self.alloc, &mut self.packet);
        self.wrote(code)
    }

    fn greeted(&mut self, bytes: &[u8]) -> u32 {
        let mut told = 9;
        let code = matches::lockstep_greeted(&mut self.setup, self.alloc, bytes, &mut told);
        self.tell(code, told)
    }

    fn welcome(&mut self, lag: u32) -> u32 {
        let terms = CTerms {
            me: 1,
            clients: 2,
            lag,
            seed: 7,
        };
        let code = matches::lockstep_welcome(&terms, self.alloc, &mut self.packet);
        self.wrote(code)
    }

    fn welcomed(&mut self, bytes: &[u8]) -> u32 {
        let mut terms = CTerms {
            me: 9,
            clients: 9,
            lag: 9,
            seed: 9,
        };
        let code = matches::lockstep_welcomed(bytes, &mut terms);
        self.tell(code, terms.me)
    }

    fn peer_create(&mut self, me: u32) -> u32 {
        let terms = CTerms {
            me,
            clients: 2,
            lag: 2,
            seed: 7,
        };
        matches::lockstep_peer_create(&mut self.peer, &mut self.setup, self.alloc, &terms)
    }

    fn peer_deliver(&mut self, bytes: &[u8]) -> u32 {
        let mut told = 9;
        let code = matches::lockstep_peer_deliver(&mut self.peer, self.alloc, bytes, &mut told);
        self.tell(code, told)
    }

    fn peer_tick(&mut self) -> u32 {
        let mut told = 9;
        let code = matches::lockstep_peer_tick(&mut self.peer, self.alloc, &mut told);
        self.tell(code, told)
    }

    fn peer_seal(&mut self, bytes: &[u8]) -> u32 {
        let (peer, packet) = (&mut self.peer, &mut self.packet);
        let code = matches::lockstep_peer_seal(peer, self.alloc, bytes, packet);
        self.wrote(code)
    }

    fn peer_report(&mut self) -> u32 {
        let code = matches::lockstep_peer_report(&mut self.peer, self.alloc, &mut self.packet);
        self.wrote(code)
    }

    fn server_create(&mut self, clients: u32) -> u32 {
        matches::lockstep_server_create(&mut self.server, &mut self.setup, self.alloc, clients, 7)
    }

    fn server_up(&mut self, client: u32, bytes: &[u8]) -> u32 {
        let mut told = 9;
        let server = &mut self.server;
        let code = matches::lockstep_server_up(server, self.alloc, client, bytes, &mut told);
        self.tell(code, told)
    }

    fn server_drop(&mut self, client: u32) -> u32 {
        let mut told = 9;
        let code = matches::lockstep_server_drop(&mut self.server, self.alloc, client, &mut told);
        self.tell(code, told)
    }

    fn server_entry(&mut self, client: u32, frame: u32) -> u32 {
        let (server, packet) = (&mut self.server, &mut self.packet);
        let code = matches::lockstep_server_entry(server, self.alloc, client, frame, packet);
        self.wrote(code)
    }

    fn server_tick(&mut self) -> u32 {
        let mut told = 9;
        let code = matches::lockstep_server_tick(&mut self.server, self.alloc, &mut told);
        self.tell(code, told)
    }

    fn server_alarm(&mut self, client: u32) -> u32 {
        let mut out = CAlarm {
            frame: 9,
            got: 0,
            want: 0,
        };
        let code = matches::lockstep_server_alarm(&mut self.server, self.alloc, client, &mut out);
        self.tell(code, out.frame)
    }

    /// The bytes of the packet that was written last.
    fn packet_bytes(&self) -> Result<Vec<u8>, AllocError> {
        let mut bytes = Vec::from_slice(self.alloc, &self.packet.bytes)?;
        bytes.truncate(self.packet.len as usize);
        Ok(bytes)
    }

    fn free(&mut self) -> u32 {
        crate::lockstep_free(&mut self.setup, self.alloc);
        crate::lockstep_free(&mut self.world, self.alloc);
        crate::lockstep_free(&mut self.peer, self.alloc);
        crate::lockstep_free(&mut self.server, self.alloc);
        crate::lockstep_free(&mut self.shared, self.alloc);
        if self.setup.is_empty() {
            OK
        } else {
            WRONG_OBJECT
        }
    }

    /// A call of a setup.
    fn of_setup(&mut self, call: Call, bytes: &[u8]) -> Result<u32, AllocError> {
        let (setup, alloc) = (&mut self.setup, self.alloc);
        match call {
            C::SetupCreate => Ok(crate::lockstep_setup_create(setup, alloc)),
            C::SetupAdd(what) => Ok(crate::lockstep_setup_add(setup, alloc, what, bytes)),
            C::SetupRead => Ok(self.setup_read()),
            C::SetupShare => Ok(crate::lockstep_setup_share(&mut self.shared, setup, alloc)),
            C::SetupKind(kind) => Ok(self.setup_kind(kind)),
            C::SetupKindName(kind, places) => self.setup_kind_name(kind, places),
            C::SetupTerrain(places) => self.setup_terrain(places),
            C::Hello => Ok(self.hello()),
            C::Greeted => Ok(self.greeted(bytes)),
            C::Free => Ok(self.free()),
            _ => self.of_world(call, bytes),
        }
    }

    /// A call of a world.
    fn of_world(&mut self, call: Call, bytes: &[u8]) -> Result<u32, AllocError> {
        match call {
            C::Abi => Ok(crate::lockstep_abi()),
            C::WorldCreate(clients) => Ok(self.world_create(clients)),
            C::WorldStep => { Ok(crate::lockstep_world_step(&mut self.world, self.alloc, bytes)) }
            C::ReadHead => Ok(self.read_head()),
            C::ReadActors(places) => self.read_actors(places),
            C::ReadItems(id, places) => self.read_items(id, places),
            C::ReadOre(places) => self.read_ore(places),
            C::Seen(client, places) => self.seen(client, places),
            C::FindRoute(kind, to_x, places) => self.find_route(kind, to_x, places),
            C::Bot(client) => Ok(self.bot(client)),
            _ => self.of_match(call, bytes),
        }
    }

    /// A call of a match.
    fn of_match(&mut self, call: Call, bytes: &[u8]) -> Result<u32, AllocError> {
        match call {
            C::Welcome(lag) => Ok(self.welcome(lag)),
            C::Welcomed => Ok(self.welcomed(bytes)),
            C::PeerCreate(me) => Ok(self.peer_create(me)),
            C::PeerDeliver => Ok(self.peer_deliver(bytes)),
            C::PeerTick => Ok(self.peer_tick()),
            C::PeerSeal => Ok(self.peer_seal(bytes)),
            C::PeerReport => Ok(self.peer_report()),
            C::ServerCreate(clients) => Ok(self.server_create(clients)),
            C::ServerUp(client) => Ok(self.server_up(client, bytes)),
            C::ServerDrop(client) => Ok(self.server_drop(client)),
            C::ServerEntry(client, frame) => Ok(self.server_entry(client, frame)),
            C::ServerTick => Ok(self.server_tick()),
            C::ServerAlarm(client) => Ok(self.server_alarm(client)),
            _ => self.with_last(call),
        }
    }

    /// A call with the packet that was written last.
    fn with_last(&mut self, call: Call) -> Result<u32, AllocError> {
        let bytes = self.packet_bytes()?;
        match call {
            C::GreetedAgain => Ok(self.greeted(bytes.as_slice())),
            C::WelcomedAgain => Ok(self.welcomed(bytes.as_slice())),
            C::ServerUpAgain => Ok(self.server_up(0, bytes.as_slice())),
            _ => Ok(99),
        }
    }

    /// What a call answers and tells.
    fn answer(&mut self, call: Call, bytes: &[u8]) -> Result<(u32, u64), AllocError> {
        self.told = 9;
        let code = self.of_setup(call, bytes)?;
        Ok((code, self.told))
    }
}

#[test]
fn setups_and_worlds(rt: HostRuntime) -> Result<(), Fail> {
    let mut desk = Desk::empty(rt.alloc());
    for (call, bytes, code, told) in WORLDS.iter() {
        assert_eq!(rt;
            desk.answer(*call, bytes)?,
            (*code, *told),
            "{call:?} {bytes:?}"
        );
    }
    desk.free();
    Ok(())
}

/// A desk with a setup of these rules and this map.
fn sample_desk(alloc: Global) -> Result<Desk, AllocError> {
    let mut desk = Desk::empty(alloc);
    let calls = [
        (C::SetupCreate, RULES),
        (C::SetupAdd(0), RULES),
        (C::SetupAdd(1), MAP),
        (C::SetupRead, MAP),
    ];
    for (call, bytes) in calls {
        desk.answer(call, bytes)?;
    }
    Ok(desk)
}

#[test]
fn peers_and_servers(rt: HostRuntime) -> Result<(), Fail> {
    let mut desk = sample_desk(rt.alloc())?;
    for (call, bytes, code, told) in MATCHES.iter() {
        assert_eq!(rt;
            desk.answer(*call, bytes)?,
            (*code, *told),
            "{call:?} {bytes:?}"
        );
    }
    Ok(())
}

#[test]
fn without_objects(rt: HostRuntime) -> Result<(), Fail> {
    let mut desk = Desk::empty(rt.alloc());
    for (call, bytes, code, told) in NOTHING.iter() {
        assert_eq!(rt;
            desk.answer(*call, bytes)?,
            (*code, *told),
            "{call:?} {bytes:?}"
        );
    }
    Ok(())
}
