//! Bytes that a program of cases puts together.

use rs_base::{
    Bytes, NoMemory, Origin, Reply, Swn, Txn, Value, print_number, print_swn, print_value,
};
use rs_print::{print_origin, print_reply, print_row, print_txn};
use std::alloc::Global;

/// Bytes, appended part by part. A failed allocation is kept until they are finished, and nothing is appended after it.
#[derive(Drop)]
pub struct Output {
    pub alloc: Global,
    bytes: Bytes,
    failed: bool,
}

impl Output {
    pub fn new(alloc: Global) -> Output {
        Output {
            alloc,
            bytes: Bytes::new(alloc),
            failed: false,
        }
    }

    /// Returns the bytes so far.
    pub fn as_slice(&self) -> &[u8] {
        self.bytes.as_slice()
    }

    /// Returns the bytes. Fails if an allocation has failed.
    pub fn finish(self) -> Result<Bytes, NoMemory> {
        if self.failed {
            return Err(NoMemory);
        }
        Ok(self.bytes)
    }

    /// Lets a call append to the bytes, and keeps whether it ran out of memory. The outcome is given to `note`.
    pub fn target(&mut self) -> &mut Bytes {
        &mut self.bytes
    }

    /// Keeps whether a call ran out of memory.
    pub fn note(&mut self, appended: Result<(), NoMemory>) {
        self.failed = self.failed || appended.is_err();
    }

    /// Appends the bytes.
    pub fn append(&mut self, bytes: &[u8]) {
        let appended = self.bytes.extend(bytes);
        self.note(appended);
    }

    /// Appends the text.
    pub fn text(&mut self, text: &str) {
        self.append(text.as_bytes());
    }

    /// Appends a number in decimal.
    pub fn number(&mut self, number: u64) {
        let appended = print_number(self.alloc, number, &mut self.bytes);
        self.note(appended);
    }

    /// Appends a printed value.
    pub fn value(&mut self, value: &Value) {
        let appended = print_value(self.alloc, value, &mut self.bytes);
        self.note(appended);
    }

    /// Appends a printed system-wide name.
    pub fn name(&mut self, name: &Swn) {
        let appended = print_swn(self.alloc, name, &mut self.bytes);
        self.note(appended);
    }

    /// Appends a printed row, and the end of its line.
    pub fn row(&mut self, row: &[Value]) {
        let appended = print_row(self.alloc, row, &mut self.bytes);
        self.note(appended);
    }

    /// Appends a printed transaction.
    pub fn txn(&mut self, txn: &Txn) {
        let appended = print_txn(self.alloc, txn, &mut self.bytes);
        self.note(appended);
    }

    /// Appends a printed request.
    pub fn origin(&mut self, origin: &Origin) {
        let appended = print_origin(self.alloc, origin, &mut self.bytes);
        self.note(appended);
    }

    /// Appends a printed reply.
    pub fn reply(&mut self, to: &Origin, reply: &Reply) {
        let appended = print_reply(self.alloc, to, reply, &mut self.bytes);
        self.note(appended);
    }
}
