// Keyboard and teleprinter: their registers, the start of a step or cycle, and the print after one. Both engines use it.
#![tactic(auto)]

pub mod registers;
pub mod session;

// The devices' registers, in document 02's order: KEY.BYTE, KEYBOARD.FLAG, PRINTER.FLAG, PRINT.BYTE, PRINT.MARK.
#[derive(Clone, Copy)]
pub struct Devices {
    pub key: u16,
    pub keyboard: u16,
    pub printer: u16,
    pub print: u16,
    pub mark: u16,
}
