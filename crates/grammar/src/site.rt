//! The grammar of site files, as a row of words.

/// Lines of `L`, digits and `;`: rule 0 is lines and then the end, rule 1 a line, rule 2 a digit. A missing `;` is
/// label 1, and its recovery skips to the next `L`.
pub static SITE: [u32; 23] = [
    0x8044_0301,
    0x9034_0000,
    0x9024_0000,
    0x9004_0000,
    0xA040_0100,
    0xB000_0001,
    0x1130_4C00,
    0x10C0_3901,
    0x10EC_3B02,
    0x1000_FF03,
    0x2008_0000,
    0x5010_0000,
    0x7004_0000,
    0x4008_0600,
    0x3014_0700,
    0x3000_0800,
    0x2004_0000,
    0x5028_0000,
    0x600C_0000,
    0x302C_0C00,
    0x6000_0000,
    0x3038_0300,
    0x503C_0000,
];
