// Amounts in metres and cycles.
use std::fmt;

// How the amounts of a field are written: the value that means not available, the unit in units of the last decimal, how many decimals, and the unit's name.
#[derive(Clone, Copy)]
pub struct Scale {
    pub none: i16,
    pub unit: u32,
    pub decimals: usize,
    pub name: &'static str,
}

// What two octets of a record mean, in two's complement.
#[derive(Clone, Copy)]
pub struct Amount {
    pub value: i16,
    pub scale: Scale,
}

impl fmt::Display for Amount {
    // Writes the sign, the decimals and the unit's name; or that the amount is not available.
    fn fmt<W: fmt::Write>(&self, f: &mut fmt::Formatter<W>) -> fmt::Result {
        let Scale {
            none,
            unit,
            decimals,
            name,
        } = self.scale;
        if self.value == none {
            return f.write_str("not available");
        }
        let sign = if self.value < 0 { '-' } else { '+' };
        let one: u64 = if decimals == 4 { 10000 } else { 100 };
        let amount = u64::from(self.value.unsigned_abs()) * u64::from(unit);
        write!(
            f,
            "{sign}{}.{:0decimals$}{name}",
            amount / one,
            amount % one
        )
    }
}
