//! A device that is read in large pieces.
ghost use Rattle.std.specs.Prelude.{◌≡◌, ◌≤◌, ◌+◌, ◌++◌, length, take, drop, vec_len, IfSome, MatchResult};

use disk_model::{Disk, DiskFault};
use std::marker::Model;

/// A piece of a file: so many bytes from an offset on.
#[derive(Clone, Copy)]
struct Piece {
    file: u32,
    at: u64,
    len: usize,
}

impl Piece {
    // How far in the piece an offset of a file stands, where the piece has so many bytes from there on.
    fn offset_of(self, file: u32, at: u64, count: usize) -> Option<usize>
        ensures { IfSome result (λ skip. (self.file ≡ file) × (self.at + skip ≡ at) × (skip + count ≤ self.len)) }
    {
        if file != self.file || at < self.at {
            return None;
        }
        let skip = at - self.at;
        let len = self.len as u64;
        if skip <= len && count as u64 <= len - skip {
            Some(skip as usize)
        } else {
            None
        }
    }
}

// Copies the front of bytes, as many as there is room for.
fn copy_front(bytes: &[u8], into: &mut [u8]) -> usize
    ensures count { result ≡ length (take (length into.old) bytes.now) }
    ensures bytes { into.new ≡ take (length into.old) bytes.now ++ drop result into.old }
{
    let count = bytes.len().min(into.len());
    let (front, _) = into.split_at_mut(count);
    front.copy_from_slice(&bytes[..count]);
    count
}

/// A device of which the last piece that was read is kept: what lies within it is not read again. Each call that may change a
/// file forgets the piece.
#[derive(Drop)]
pub(crate) struct Buffered<D: Disk> {
    device: D,
    // The piece that the front of the buffer holds.
    piece: Option<Piece>,
    buffer: Vec<u8>,
}

impl<D: Disk> Model for Buffered<D> {
    ghost use Rattle.std.specs.Prelude.{IfSome};
    ghost use Rattle.trail_files.specs.Buffered.{IsPiece};

    ghost Value = { D };

    ghost view = { λ b. b.device };

    ghost invariant = { λ b. IfSome b.piece (IsPiece D.tells D.held b.device b.buffer.items) };
}

impl<D: Disk> Buffered<D> {
    ghost use Rattle.std.specs.Borrow.{sem, Lends};
    ghost use Rattle.trail_files.specs.contracts.buffered.Buffered.{the_row};

    /// The device, read in pieces as long as the buffer.
    pub fn new(device: D, buffer: Vec<u8>) -> Self
        ensures { result ≡ device }
    {
        Buffered {
            device,
            piece: None,
            buffer,
        }
    }

    /// The device, lent. What is done to it is not seen, so the piece is forgotten.
    pub fn device(&mut self) -> &mut D
        ensures* lends { sem 𝓛 (Lends (the_row D.row D.Disk) D.row self.entry result (λ d. d)) }
        ensures value { result.now ≡ self.old }
    {
        self.piece = None;
        &mut self.device
    }

    /// The device.
    pub fn into_device(self) -> D
        ensures { result ≡ self }
    {
        let Buffered { device, .. } = self;
        device
    }
}

impl<D: Disk> Disk for Buffered<D> {
    ghost tells = { λ b. D.tells b };

    ghost held = { λ b. D.held b };

    ghost faults = { λ b. D.faults b };

    ghost is_same = { λ a b. D.is_same a b };

    ghost same_itself = { λ b. D.same_itself b };

    ghost same_on = { λ a b c p q. D.same_on a b c p q };

    ghost sound = { λ b. D.sound b };

    fn least(&mut self) -> Result<Option<u32>, DiskFault> {
        self.device.least()
    }

    fn length(&mut self, file: u32) -> Result<Option<u64>, DiskFault> {
        self.device.length(file)
    }

    fn read(&mut self, file: u32, at: u64, into: &mut [u8]) -> Result<usize, DiskFault> {
        let count = into.len();
        if count > self.buffer.len() {
            self.piece = None;
            return self.device.read(file, at, into);
        }
        if let Some(piece) = self.piece {
            if let Some(skip) = piece.offset_of(file, at, count) {
                into.copy_from_slice(&self.buffer[skip..skip + count]);
                return Ok(count);
            }
        }
        self.piece = None;
        let len = self.device.read(file, at, &mut self.buffer)?;
        self.piece = Some(Piece { file, at, len });
        Ok(copy_front(&self.buffer[..len], into))
    }

    fn write(&mut self, file: u32, at: u64, bytes: &[u8]) -> Result<(), DiskFault> {
        self.device().write(file, at, bytes)
    }

    fn sync(&mut self, file: u32) -> Result<(), DiskFault> {
        self.device().sync(file)
    }

    fn create(&mut self, file: u32) -> Result<(), DiskFault> {
        self.device().create(file)
    }

    fn remove(&mut self, file: u32) -> Result<(), DiskFault> {
        self.device().remove(file)
    }

    fn restart(&mut self) {
        self.device().restart();
    }
}
