// The information octets of Annex D of source 000, in its "flipped" order, which is the ICD's: c31, c30, .. c0.
pub const INFORMATION: [u8; 32] = [
    179, 130, 66, 192, 58, 150, 87, 245, 128, 31, 42, 168, 174, 71, 193, 181, 165, 114, 125, 48,
    203, 196, 98, 112, 9, 243, 81, 178, 210, 25, 12, 71,
];
