// Reads the octets of a message from standard input, with no mask lent, and says in words what it holds, or why it is refused.
#![tactic(auto)]

ghost use Rattle.std.specs.Prelude.{◌≤◌};

mod amount;
mod names;
mod words;

use amount::{Amount, Scale};
use names::{Satellite, name_signal};
use reader::RECORDS_OCTETS;
use std::io;
use words::explain;

// An octet more than a message may have.
const INPUT_OCTETS: usize = 1697;

// A record, as document 01 lays it out.
type Record = [u8; 16];

// What stands in a record where there is no clock, bias or phase.
const ABSENT: i16 = i16::MIN;

// The IOD where there is no orbit.
const NO_ORBIT: u16 = u16::MAX;

// A clock that is not to be used.
const DO_NOT_USE: i16 = 4095;

// Along the radius, and of a clock: 0.0025 m.
const RADIAL: Scale = Scale {
    none: -4096,
    unit: 25,
    decimals: 4,
    name: " m",
};

// Along the track and across it: 0.008 m.
const TRACK: Scale = Scale {
    none: -2048,
    unit: 80,
    decimals: 4,
    name: " m",
};

// Of a code bias: 0.02 m.
const CODE: Scale = Scale {
    none: -1024,
    unit: 2,
    decimals: 2,
    name: " m",
};

// Of a phase bias: 0.01 cycles.
const PHASE: Scale = Scale {
    none: -1024,
    unit: 1,
    decimals: 2,
    name: " cycles",
};

// What a system's record says of the records behind it: its GNSS ID, and the multipliers of its clocks.
#[derive(Clone, Copy)]
struct System {
    gnss_id: u8,
    times: u8,
    subset_times: u8,
}

// A block that is there, and for how long it is valid.
fn print_block(rt: &impl Print, name: &str, index: u8) -> io::Result<()> {
    match mt1::interval_seconds(u64::from(index)) {
        Ok(seconds) => println!(rt; "{name}, valid for {seconds} s"),
        Err(_) => Ok(()),
    }
}

// The header record, and the blocks that are there.
fn describe_header(rt: &impl Print, r: Record) -> io::Result<()> {
    println!(rt;
        "Time of hour {} s, Mask ID {}, IOD Set ID {}",
        u16::from_be_bytes([r[4], r[5]]),
        r[2],
        r[3],
    )?;
    print_block(rt, "Orbit corrections", r[6])?;
    print_block(rt, "Clock corrections of all satellites", r[7])?;
    print_block(rt, "Clock corrections of a subset", r[8])?;
    print_block(rt, "Code biases", r[9])?;
    print_block(rt, "Phase biases", r[10])
}

// The multiplier that a field says: 0 to 3 mean 1 to 4; the 255 of a system that has none gives 1.
fn multiplier(field: u8) -> u8
    ensures { result ≤ 4 }
{
    if field > 3 { 1 } else { field + 1 }
}

// The system of a record.
fn system_of(r: Record) -> System {
    System {
        gnss_id: r[2],
        times: multiplier(r[5]),
        subset_times: multiplier(r[6]),
    }
}

// A system's record: its name.
fn describe_system(rt: &impl Print, r: Record) -> io::Result<()> {
    println!(rt; "{}", if r[2] == 0 { "GPS" } else { "Galileo" })
}

// A clock, in units of 0.0025 m times its multiplier; nothing if it is absent.
fn describe_clock(rt: &impl Print, name: &str, value: i16, times: u8) -> io::Result<()> {
    if value == ABSENT {
        return Ok(());
    }
    print!(rt; "{name}")?;
    if value == DO_NOT_USE {
        return print!(rt; "do not use");
    }
    let unit = 25 * u32::from(times);
    let scale = Scale { unit, ..RADIAL };
    print!(rt; "{}", Amount { value, scale })
}

// The orbit of a satellite; nothing if it is absent.
fn describe_orbit(rt: &impl Print, r: Record) -> io::Result<()> {
    let iod = u16::from_be_bytes([r[4], r[5]]);
    if iod == NO_ORBIT {
        return Ok(());
    }
    let radial = Amount {
        value: i16::from_be_bytes([r[6], r[7]]),
        scale: RADIAL,
    };
    let in_track = Amount {
        value: i16::from_be_bytes([r[8], r[9]]),
        scale: TRACK,
    };
    let cross_track = Amount {
        value: i16::from_be_bytes([r[10], r[11]]),
        scale: TRACK,
    };
    print!(rt; ": IOD {iod}, radial {radial}, in-track {in_track}, cross-track {cross_track}")
}

// A satellite's record.
fn describe_satellite(rt: &impl Print, system: System, r: Record) -> io::Result<()> {
    let satellite = Satellite {
        gnss_id: system.gnss_id,
        index: r[2],
    };
    print!(rt; "  {satellite}")?;
    describe_orbit(rt, r)?;
    describe_clock(
        rt,
        ", clock ",
        i16::from_be_bytes([r[12], r[13]]),
        system.times,
    )?;
    describe_clock(
        rt,
        ", clock of the subset ",
        i16::from_be_bytes([r[14], r[15]]),
        system.subset_times,
    )?;
    println!(rt)
}

// A cell's record: the biases of a signal.
fn describe_cell(rt: &impl Print, system: System, r: Record) -> io::Result<()> {
    let code = Amount {
        value: i16::from_be_bytes([r[4], r[5]]),
        scale: CODE,
    };
    let phase = Amount {
        value: i16::from_be_bytes([r[6], r[7]]),
        scale: PHASE,
    };
    print!(rt; "    {}", name_signal(system.gnss_id, r[3]))?;
    if code.value != ABSENT {
        print!(rt; ", code {code}")?;
    }
    if phase.value != ABSENT {
        print!(rt; ", phase {phase}, discontinuity {}", r[8])?;
    }
    println!(rt)
}

// A record, by its kind: the kinds 1 to 4 are octets of the records' format (document 01, Records).
fn describe_record(rt: &impl Print, system: System, r: Record) -> io::Result<()> {
    match r[0] {
        1 => describe_header(rt, r),
        2 => describe_system(rt, r),
        3 => describe_satellite(rt, system, r),
        _ => describe_cell(rt, system, r),
    }
}

// The first n records, each with what the last system's record (kind 2) before it says.
fn describe_records(rt: &impl Print, records: &[u8], n: u64) -> io::Result<()> {
    let mut system = System {
        gnss_id: 0,
        times: 1,
        subset_times: 1,
    };
    for &r in records.as_chunks::<16>().0.iter().take(n as usize) {
        if r[0] == 2 {
            system = system_of(r);
        }
        describe_record(rt, system, r)?;
    }
    Ok(())
}

fn main(rt: HostRuntime) -> io::Result<()> {
    let mut input = [0u8; INPUT_OCTETS];
    let n = stdio::read_full(&rt, &mut input)?;
    let mut records = [0u8; RECORDS_OCTETS];
    match reader::read(&input[..n], 0, &[], &mut records) {
        Ok(count) => describe_records(&rt, &records, count),
        Err(refused) => println!(rt;
            "Refused: {}, at bit {}.",
            explain(refused.why),
            refused.place
        ),
    }
}
