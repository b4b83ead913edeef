// The weights of the columns in the formula of the generator matrix's dense part. The last is 1, and a rule ties each to the next (Formula.weights-rule).
pub const WEIGHTS: [u8; 32] = [
    193, 190, 211, 181, 33, 208, 59, 38, 30, 230, 133, 183, 107, 225, 199, 126, 98, 99, 198, 87,
    148, 148, 17, 159, 38, 85, 252, 61, 191, 247, 233, 1,
];
