//! Bodies of buffers.
ghost use Rattle.std.specs.Prelude.{◌≡◌, ◌<◌, ◌≤◌, ◌^◌, length, slice_range, IfOk};
ghost use Rattle.std.specs.Borrow.{sem};
ghost use Rattle.gst_item.specs.Held.{held_bytes};
ghost use Rattle.gst_item.specs.Lent.{LendsBlockIfOk, LendsBytes, LendsBytesIfOk, LendsOwnedIfOk};
ghost use Rattle.gst_item.specs.declared.body.Held.TheVariants.{Owned};

use bytes::Bytes;
use gst_value::OutOfMemory;
use std::alloc::Global;
use std::marker::Model;

/// The most bytes that a body holds.
pub const LARGEST_BODY: usize = 2_147_483_647;

/// Bytes that one body owns, at most `LARGEST_BODY` of them.
#[derive(Drop)]
struct OwnedBytes {
    bytes: Vec<u8>,
}

impl Model for OwnedBytes {
    ghost use Rattle.std.specs.Prelude.{ℕ, List, ◌≤◌, vec_len};
    ghost use Rattle.gst_item.specs.declared.body.TheConstants.{LARGEST_BODY};

    ghost Value = { List ℕ };

    ghost view = { λ s. s.bytes.items };

    ghost invariant = { λ s. vec_len s.bytes ≤ LARGEST_BODY };
}

/// Bytes that bodies may share, at most `LARGEST_BODY` of them.
#[derive(Drop)]
struct SharedBytes {
    bytes: Bytes,
}

impl Model for SharedBytes {
    ghost use Rattle.std.specs.Prelude.{ℕ, List, ◌≤◌, length};
    ghost use Rattle.gst_item.specs.declared.body.TheConstants.{LARGEST_BODY};

    ghost Value = { List ℕ };

    ghost view = { λ s. s.bytes };

    ghost invariant = { λ s. length s.bytes ≤ LARGEST_BODY };
}

/// The two ways of holding bytes. Each of them keeps the limit.
#[derive(Drop)]
enum Held {
    Owned(OwnedBytes),
    Shared(SharedBytes),
}

/// The bytes of a buffer, at most `LARGEST_BODY` of them, seen as their list.
#[derive(Drop)]
pub struct Body {
    held: Held,
}

impl Model for Body {
    ghost use Rattle.std.specs.Prelude.{ℕ, List};
    ghost use Rattle.gst_item.specs.Held.{held_bytes};

    ghost Value = { List ℕ };

    ghost view = { λ s. held_bytes s.held };
}

impl Body {
    /// The bytes of a vector, which are not copied. More than `LARGEST_BODY` of them are `OutOfMemory`.
    pub fn from_vec(_alloc: Global, bytes: Vec<u8>) -> Result<Body, OutOfMemory>
        ensures bytes { IfOk result (λ made. made ≡ bytes.items) }
    {
        if bytes.len() > LARGEST_BODY {
            return Err(OutOfMemory);
        }
        match Bytes::from_vec(bytes) {
            Ok(bytes) => Ok(Body::shared(bytes)),
            Err(_) => Err(OutOfMemory),
        }
    }

    /// A body of bytes that further bodies may share.
    fn shared(bytes: Bytes) -> Body
        requires small { length bytes ≤ LARGEST_BODY }
        ensures { result ≡ bytes }
    {
        Body {
            held: Held::Shared(SharedBytes { bytes }),
        }
    }

    /// The bytes.
    #[inline]
    pub fn as_slice(&self) -> &[u8]
        ensures bytes { result.now ≡ self.now }
        ensures small { length self.now < 2 ^ 31 }
    {
        self.held.as_slice()
    }

    /// The bytes from place `from` up to place `to`. They are shared, and copied only out of a body that `make_mut`
    /// has changed.
    pub fn slice(&self, alloc: Global, from: u32, to: u32) -> Result<Body, OutOfMemory>
        requires order { from ≤ to }
        requires within { to ≤ length self.now }
        ensures { IfOk result (λ made. made ≡ slice_range self.now from to) }
    {
        Ok(Body {
            held: Held::Shared(self.held.slice(alloc, from as usize, to as usize)?),
        })
    }

    /// The same bytes in a further holder. They are shared, and copied only out of a body that `make_mut` has changed.
    pub fn share(&self, alloc: Global) -> Result<Body, OutOfMemory>
        ensures { IfOk result (λ made. made ≡ self.now) }
    {
        Ok(Body {
            held: Held::Shared(self.held.share(alloc)?),
        })
    }

    /// The bytes, to be changed in this holder alone: what is written there is then the body. Where there is no
    /// memory the body stays.
    pub fn make_mut(&mut self, alloc: Global) -> Result<&mut [u8], OutOfMemory>
        ensures* writes_back { sem 𝓛 (LendsBytesIfOk self.entry result) }
        ensures bytes { IfOk result (λ lent. lent.now ≡ self.old) }
    {
        match self.own(alloc) {
            Ok(block) => Ok(block.bytes_mut()),
            Err(fault) => Err(fault),
        }
    }

    /// The bytes as a block of this body alone.
    fn own(&mut self, alloc: Global) -> Result<&mut OwnedBytes, OutOfMemory>
        ensures* writes_back { sem 𝓛 (LendsBlockIfOk self.entry result) }
        ensures bytes { IfOk result (λ block. block.now ≡ self.old) }
    {
        self.unshare(alloc)?;
        self.held.owned()
    }

    /// Makes the bytes those of this body alone, if they are shared.
    fn unshare(&mut self, alloc: Global) -> Result<(), OutOfMemory>
        ensures { self.new ≡ self.old }
    {
        if let Held::Shared(bytes) = &self.held {
            self.held = Held::Owned(bytes.copied(alloc)?);
        }
        Ok(())
    }
}

impl Held {
    #[inline]
    fn as_slice(&self) -> &[u8]
        ensures bytes { result.now ≡ held_bytes self.now }
        ensures small { length (held_bytes self.now) < 2 ^ 31 }
    {
        match self {
            Held::Owned(bytes) => bytes.as_slice(),
            Held::Shared(bytes) => bytes.as_slice(),
        }
    }

    /// The bytes from place `from` up to place `to`.
    fn slice(&self, alloc: Global, from: usize, to: usize) -> Result<SharedBytes, OutOfMemory>
        requires order { from ≤ to }
        requires within { to ≤ length (held_bytes self.now) }
        ensures { IfOk result (λ made. made ≡ slice_range (held_bytes self.now) from to) }
    {
        match self {
            Held::Owned(bytes) => bytes.slice(alloc, from, to),
            Held::Shared(bytes) => bytes.slice(from, to),
        }
    }

    /// All the bytes.
    fn share(&self, alloc: Global) -> Result<SharedBytes, OutOfMemory>
        ensures { IfOk result (λ made. made ≡ held_bytes self.now) }
    {
        match self {
            Held::Owned(bytes) => bytes.share(alloc),
            Held::Shared(bytes) => bytes.share(),
        }
    }

    /// The block, where there is one.
    fn owned(&mut self) -> Result<&mut OwnedBytes, OutOfMemory>
        ensures* writes_back { sem 𝓛 (LendsOwnedIfOk self.entry result) }
        ensures bytes { IfOk result (λ block. Owned block.now ≡ self.old) }
    {
        match self {
            Held::Owned(block) => Ok(block),
            Held::Shared(_) => Err(OutOfMemory),
        }
    }
}

impl OwnedBytes {
    #[inline]
    fn as_slice(&self) -> &[u8]
        ensures bytes { result.now ≡ self.now }
        ensures small { length self.now < 2 ^ 31 }
    {
        self.bytes.as_slice()
    }

    /// The bytes, to be changed.
    fn bytes_mut(&mut self) -> &mut [u8]
        ensures* writes_back { sem 𝓛 (LendsBytes self.entry result) }
        ensures bytes { result.now ≡ self.old }
    {
        self.bytes.as_mut_slice()
    }

    /// A copy of the bytes from place `from` up to place `to`.
    fn slice(&self, alloc: Global, from: usize, to: usize) -> Result<SharedBytes, OutOfMemory>
        requires order { from ≤ to }
        requires within { to ≤ length self.now }
        ensures { IfOk result (λ made. made ≡ slice_range self.now from to) }
    {
        let bytes = Bytes::copy_from_slice(alloc, &self.bytes[from..to])?;
        Ok(SharedBytes { bytes })
    }

    /// A copy of the bytes.
    fn share(&self, alloc: Global) -> Result<SharedBytes, OutOfMemory>
        ensures { IfOk result (λ made. made ≡ self.now) }
    {
        let bytes = Bytes::copy_from_slice(alloc, self.bytes.as_slice())?;
        Ok(SharedBytes { bytes })
    }
}

impl SharedBytes {
    #[inline]
    fn as_slice(&self) -> &[u8]
        ensures bytes { result.now ≡ self.now }
        ensures small { length self.now < 2 ^ 31 }
    {
        self.bytes.as_slice()
    }

    /// The bytes from place `from` up to place `to`, which are not copied.
    fn slice(&self, from: usize, to: usize) -> Result<SharedBytes, OutOfMemory>
        requires order { from ≤ to }
        requires within { to ≤ length self.now }
        ensures { IfOk result (λ made. made ≡ slice_range self.now from to) }
    {
        let bytes = self.bytes.slice(from..to)?;
        Ok(SharedBytes { bytes })
    }

    /// The same bytes, which are not copied.
    fn share(&self) -> Result<SharedBytes, OutOfMemory>
        ensures { IfOk result (λ made. made ≡ self.now) }
    {
        let bytes = self.bytes.clone()?;
        Ok(SharedBytes { bytes })
    }

    /// A copy of the bytes.
    fn copied(&self, alloc: Global) -> Result<OwnedBytes, OutOfMemory>
        ensures { IfOk result (λ made. made ≡ self.now) }
    {
        let bytes = Vec::from_slice(alloc, self.bytes.as_slice())?;
        Ok(OwnedBytes { bytes })
    }
}

#[cfg(test)]
impl Body {
    /// Whether no other body holds these bytes.
    pub(crate) fn holds_alone(&self) -> bool {
        match &self.held {
            Held::Owned(_) => true,
            Held::Shared(shared) => shared.bytes.is_unique(),
        }
    }
}
