// The bench sheet's lines that have no star: run on the product's own calls, a line each in the paper's words, and compared with the file `stdout`.
#![tactic(auto)]

use rack::{Rack, Ran};
use record::{Cell, Client, Replica};

fn say(out: &impl Print, words: &[u8]) {
    let _ = out.write_all(words);
}

fn say_number(out: &impl Print, n: u64) {
    let _ = out.print(n);
}

// The end of a line: the refusal, or what is said where there is none.
fn end(out: &impl Print, refusal: u8, done: &[u8]) {
    if refusal == 0 {
        say(out, done);
    } else {
        say(out, b"refused ");
        say_number(out, refusal as u64);
    }
    say(out, b"\n");
}

// Reads a number from bytes.
fn read(out: &impl Print, words: &[u8], bytes: &[u8]) {
    say(out, words);
    match number::read_number(bytes, 0) {
        Ok(_) => end(out, 0, b"a number"),
        Err(k) => end(out, k.number(), b""),
    }
}

// Makes a rack of these sizes.
fn make(out: &impl Print, words: &[u8], replicas: u32, clients: u32, cells: u32) {
    say(out, words);
    let made = Rack::made(replicas, clients, cells);
    end(out, made.refusal, b"made");
}

// How many slots of the wire are used.
fn used(rack: &Rack) -> u64 {
    rack.wire.iter().filter(|slot| slot.held.is_some()).count() as u64
}

// A start sends an ask to each replica, copies of the first take the slots that are left, and one more is refused.
const COPIES: usize = Rack::SLOTS - Replica::LIMIT;

const EVENTS: usize = COPIES + 2;

// The most that a rack is made from, and one replica more.
const REPLICAS: u32 = Replica::LIMIT as u32;

const TOO_MANY: u32 = REPLICAS + 1;

const CLIENTS: u32 = Client::LIMIT as u32;

const CELLS: u32 = Cell::LIMIT as u32;

// Those events on the largest rack.
fn fill() -> Ran {
    let mut events = [0u32; 4 * EVENTS];
    for i in 1..EVENTS {
        events[4 * i] = 4;
    }
    let made = Rack::made(REPLICAS, CLIENTS, CELLS);
    schedule::run(made.rack, EVENTS, &events)
}

// What a full wire allows.
fn full(out: &impl Print) {
    let filled = fill();
    say(out, b"With all ");
    say_number(out, used(&filled.rack));
    say(out, b" slots used copy is ");
    end(out, filled.refusal, b"done");
    let delivered = schedule::step(filled.rack, 2, 0, 0, 0);
    say(out, b"With all ");
    say_number(out, used(&filled.rack));
    say(
        out,
        b" slots used delivery of an ask to a replica that is on is ",
    );
    end(out, delivered.refusal, b"done");
}

fn main(rt: HostRuntime) {
    let out = &rt;
    read(out, b"80 00 is ", &[0x80, 0x00]);
    read(out, b"80 alone is ", &[0x80]);
    read(out, b"FF FF FF FF 10 is ", &[0xFF, 0xFF, 0xFF, 0xFF, 0x10]);
    make(out, b"Sizes 15, 8, 16 are ", REPLICAS, CLIENTS, CELLS);
    make(out, b"Sizes 16, 8, 16 are ", TOO_MANY, CLIENTS, CELLS);
    full(out);
}
