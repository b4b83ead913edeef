// The names of satellites and signals (ICD Tables 19 and 20).
use std::fmt;

// G01 to G40, E01 to E40: the satellite's number is its index and 1.
#[derive(Clone, Copy)]
pub struct Satellite {
    pub gnss_id: u8,
    pub index: u8,
}

impl fmt::Display for Satellite {
    // Writes the letter of the GNSS, and the number in two digits.
    fn fmt<W: fmt::Write>(&self, f: &mut fmt::Formatter<W>) -> fmt::Result {
        let letter = if self.gnss_id == 0 { 'G' } else { 'E' };
        let number = u16::from(self.index) + 1;
        write!(f, "{letter}{number:02}")
    }
}

// A signal of GPS by its index.
fn gps_signal(index: u8) -> &'static str {
    match index {
        0 => "L1 C/A",
        3 => "L1C(D)",
        4 => "L1C(P)",
        5 => "L1C(D+P)",
        6 => "L2 CM",
        7 => "L2 CL",
        8 => "L2 CM+CL",
        9 => "L2 P",
        11 => "L5 I",
        12 => "L5 Q",
        13 => "L5 I+Q",
        _ => "reserved signal",
    }
}

// A signal of Galileo by its index.
fn galileo_signal(index: u8) -> &'static str {
    match index {
        0 => "E1-B",
        1 => "E1-C",
        2 => "E1-B+C",
        3 => "E5a-I",
        4 => "E5a-Q",
        5 => "E5a-I+Q",
        6 => "E5b-I",
        7 => "E5b-Q",
        8 => "E5b-I+Q",
        9 => "E5-I",
        10 => "E5-Q",
        11 => "E5-I+Q",
        12 => "E6-B",
        13 => "E6-C",
        14 => "E6-B+C",
        _ => "reserved signal",
    }
}

// A signal by the GNSS ID and its index.
pub fn name_signal(gnss_id: u8, index: u8) -> &'static str {
    if gnss_id == 0 {
        gps_signal(index)
    } else {
        galileo_signal(index)
    }
}
