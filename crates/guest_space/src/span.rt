// One span of a guest's memory.
ghost use Rattle.std.specs.Prelude.{◌≡◌, ◌<◌, ◌+◌, ◌-◌, ◌*◌, ◌/◌, ◌^◌, ◌≤◌, IfSome, MatchBool};
ghost use Rattle.std.specs.Bool.{OnTrue};
ghost use Rattle.guest_space.specs.Space.{blank_span, segment_span};
ghost use Rattle.guest_space.specs.Ranges.{has_address, has_range, some_has, AreHeld, IsCode};
ghost use Rattle.guest_space.specs.Stretches.{IsOpen, IsIn};

use crate::Stretch;
use guest_image::Segment;
use std::marker::Model;

/// What a span may permit, by its flag in a program header (System V ABI, "Segment Permissions").
pub const EXECUTE: u32 = 1;

pub const WRITE: u32 = 2;

pub const READ: u32 = 4;

/// Addresses from one up to another, and what may be done with their bytes.
#[derive(Debug, Drop)]
pub struct Span {
    flags: u32,
    start: u32,
    end: u32,
}

impl Model for Span {
    ghost use Rattle.guest_space.specs.Space as space;

    ghost Value = { space.Span };

    ghost view = { λ s. record { flags = s.flags; start = s.start; end = s.end } };
}

impl Span {
    /// Whether the span has the address and permits this.
    #[inline(always)]
    pub fn has_address(&self, flag: u32, at: u32) -> bool
        requires { 0 < flag }
        ensures { result ≡ has_address flag at self.now }
    {
        self.flags / flag % 2 == 1 && self.start <= at && at < self.end
    }

    /// Whether the span permits this and has so many addresses from one on.
    #[inline(always)]
    pub fn has_range(&self, flag: u32, at: u32, size: u32) -> bool
        requires { 0 < flag }
        ensures { result ≡ has_range flag at size self.now }
    {
        // Of spans in order most lie before the addresses: that is seen first.
        u64::from(at) + u64::from(size) <= u64::from(self.end)
            && self.start <= at
            && self.flags / flag % 2 == 1
    }

    /// Whether it may be executed and not written, and begins at a multiple of 4.
    pub fn is_code(&self) -> bool
        ensures { OnTrue result (IsCode self.now) }
    {
        self.flags / EXECUTE % 2 == 1 && self.flags / WRITE % 2 == 0 && self.start % 4 == 0
    }

    /// Its first address.
    pub fn start(&self) -> u32
        ensures { result ≡ self.now.start }
    {
        self.start
    }

    /// How many bytes its whole words have.
    pub fn words_len(&self) -> u32
        requires { self.now.start ≤ self.now.end }
        ensures { result ≡ (self.now.end - self.now.start) / 4 * 4 }
    {
        (self.end - self.start) / 4 * 4
    }

    /// The addresses from each of which on it has four bytes.
    #[inline(always)]
    fn stretch(&self) -> Stretch
        requires { self.now.start + 4 ≤ self.now.end }
        ensures value { result ≡ record { start = self.now.start; count = self.now.end - 3 - self.now.start } }
        ensures below { self.now.end ≤ 2 ^ 32 }
    {
        Stretch {
            start: self.start,
            count: self.end - 3 - self.start,
        }
    }
}

/// The stretch of a span that permits this and has the four bytes from an address on.
#[inline(always)]
pub fn stretch_of(spans: &[Span], flag: u32, at: u32) -> Option<Stretch>
    requires { 0 < flag }
    ensures open { IfSome result (λ stretch. IsOpen flag spans.now stretch) }
    ensures has { IfSome result (λ stretch. IsIn stretch at) }
{
    for span in spans {
        if span.has_range(flag, at, 4) {
            return Some(span.stretch());
        }
    }
    None
}

/// The same; where there is none, that of no address.
#[cold]
#[inline(never)]
pub fn stretch_at(spans: &[Span], flag: u32, at: u32) -> Stretch
    requires { 0 < flag }
    ensures { IsOpen flag spans.now result }
{
    match stretch_of(spans, flag, at) {
        Some(stretch) => stretch,
        None => Stretch::none(),
    }
}

/// Whether a span has the address and permits this.
#[inline(always)]
pub fn some_has(spans: &[Span], flag: u32, at: u32) -> bool
    requires { 0 < flag }
    ensures { result ≡ some_has flag at spans.now }
{
    for span in spans {
        if span.has_address(flag, at) {
            return true;
        }
    }
    false
}

/// Whether one span permits this and has so many addresses from one on.
#[inline(always)]
pub fn one_has(spans: &[Span], flag: u32, at: u32, size: u32) -> bool
    requires { 0 < flag }
    ensures { OnTrue result (AreHeld flag spans.now at size) }
{
    for span in spans {
        if span.has_range(flag, at, size) {
            return true;
        }
    }
    false
}

/// Whether each of so many addresses from one on is in a span that permits this.
#[cold]
#[inline(never)]
pub fn each_has(spans: &[Span], flag: u32, at: u32, size: u32) -> bool
    requires kind { 0 < flag }
    requires within { at + size ≤ 2 ^ 32 }
    ensures { MatchBool result (AreHeld flag spans.now at size) (AreHeld flag spans.now at size → ⊥) }
{
    for k in 0..size {
        if !some_has(spans, flag, at + k) {
            return false;
        }
    }
    true
}

/// The same. Most ranges lie whole in one span.
#[inline(always)]
pub fn are_held(spans: &[Span], flag: u32, at: u32, size: u32) -> bool
    requires kind { 0 < flag }
    requires within { at + size ≤ 2 ^ 32 }
    ensures { MatchBool result (AreHeld flag spans.now at size) (AreHeld flag spans.now at size → ⊥) }
{
    if one_has(spans, flag, at, size) {
        return true;
    }
    each_has(spans, flag, at, size)
}

/// The span of a segment.
pub fn segment_span(segment: &Segment) -> Span
    requires { segment.now.vaddr + segment.now.memsz < 2 ^ 32 }
    ensures { result ≡ segment_span segment.now }
{
    Span {
        flags: segment.flags,
        start: segment.vaddr,
        end: segment.vaddr + segment.memsz,
    }
}

/// A span that may be read and written, from one address up to another.
pub fn blank_span(start: u32, end: u32) -> Span
    ensures { result ≡ blank_span start end }
{
    Span {
        flags: READ | WRITE,
        start,
        end,
    }
}
