// The built-in types' table: the number of each type's parent. The names stand beside the same numbers in specs/Builtin.antt.
pub const BUILTIN_PARENTS: [u8; 50] = [
    0, 0, 1, 1, 1, 1, 1, 1, 1, 1, 1, 1, 1, 1, 1, 1, 1, 1, 1, 1, 1, 1, 1, 1, 1, 2, 25, 26, 26, 26,
    29, 30, 30, 30, 4, 34, 34, 34, 35, 37, 39, 40, 36, 36, 42, 44, 45, 8, 7, 7,
];
