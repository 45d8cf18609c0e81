//! Numbers of the ELF format (System V ABI; ELF for the Arm Architecture).

// Types of sections.
pub const PROGBITS: u32 = 1;

pub const SYMTAB: u32 = 2;

pub const STRTAB: u32 = 3;

pub const RELA: u32 = 4;

pub const NOTE: u32 = 7;

pub const NOBITS: u32 = 8;

pub const REL: u32 = 9;

pub const INIT_ARRAY: u32 = 14;

pub const FINI_ARRAY: u32 = 15;

pub const GROUP: u32 = 17;

pub const SYMTAB_SHNDX: u32 = 18;

pub const ARM_EXIDX: u32 = 0x7000_0001;

pub const ARM_ATTRIBUTES: u32 = 0x7000_0003;

// Section indexes of a symbol that names no section.
pub const UNDEFINED_INDEX: u16 = 0;

pub const ABSOLUTE_INDEX: u16 = 0xFFF1;

// Bindings and types of symbols.
pub const LOCAL: u8 = 0;

pub const NOTYPE: u8 = 0;

pub const FUNC: u8 = 2;
