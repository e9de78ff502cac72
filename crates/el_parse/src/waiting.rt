//! Bytes that wait for more.
ghost use Rattle.std.specs.Prelude.{◌≡◌, [], ◌++◌, IfOk, OnOk, OnErr};

use gst_item::Body;
use gst_value::OutOfMemory;
use std::alloc::Global;
use std::marker::Model;

/// Bytes in their order, seen as their list.
#[derive(Drop)]
pub(crate) struct Waiting {
    bytes: Option<Vec<u8>>,
}

impl Model for Waiting {
    ghost use Rattle.std.specs.Prelude.{ℕ, List, []};
    ghost use Rattle.std.specs.Option.{option_map_or};

    ghost Value = { List ℕ };

    ghost view = { λ s. option_map_or (λ bytes. bytes.items) s.bytes [] };
}

impl Waiting {
    /// No bytes, which take no memory.
    pub(crate) fn empty() -> Waiting
        ensures { result ≡ [] }
    {
        Waiting { bytes: None }
    }

    /// A copy of these bytes. None of them take no memory.
    pub(crate) fn of(alloc: Global, bytes: &[u8]) -> Result<Waiting, OutOfMemory>
        ensures { IfOk result (λ made. made ≡ bytes.now) }
    {
        if bytes.is_empty() {
            return Ok(Waiting::empty());
        }
        let bytes = Vec::from_slice(alloc, bytes)?;
        Ok(Waiting { bytes: Some(bytes) })
    }

    /// The bytes.
    pub(crate) fn as_slice(&self) -> &[u8]
        ensures { result.now ≡ self.now }
    {
        match &self.bytes {
            None => &[],
            Some(bytes) => bytes.as_slice(),
        }
    }

    /// Puts bytes behind those that wait. Where there is no memory they stay as they are.
    pub(crate) fn push(&mut self, alloc: Global, bytes: &[u8]) -> Result<(), OutOfMemory>
        ensures ok { OnOk result (self.new ≡ self.old ++ bytes.now) }
        ensures err { OnErr result (self.new ≡ self.old) }
    {
        match &mut self.bytes {
            None => self.bytes = Some(Vec::from_slice(alloc, bytes)?),
            Some(front) => front.extend_from_slice(bytes)?,
        }
        Ok(())
    }

    /// What waits, and a body behind it. Where nothing waits the body is handed on.
    pub(crate) fn joined(&self, alloc: Global, body: Body) -> Result<Body, OutOfMemory>
        ensures { IfOk result (λ made. made ≡ self.now ++ body) }
    {
        let front = self.as_slice();
        if front.is_empty() {
            return Ok(body);
        }
        let behind = body.as_slice();
        let mut bytes = Vec::with_capacity(alloc, front.len() + behind.len())?;
        bytes.extend_from_slice(front)?;
        bytes.extend_from_slice(behind)?;
        Body::from_vec(alloc, bytes)
    }

    /// What waits, as a body.
    pub(crate) fn to_body(&self, alloc: Global) -> Result<Body, OutOfMemory>
        ensures { IfOk result (λ made. made ≡ self.now) }
    {
        let bytes = Vec::from_slice(alloc, self.as_slice())?;
        Body::from_vec(alloc, bytes)
    }
}
