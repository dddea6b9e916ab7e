// Makes what the lent slices hold before a call, and compares what they hold afterwards: bytes that stand in the list,
// or else noise. rust/vectors/src/list.rs makes the same noise.
use crate::numbers::narrow;
use std::alloc::{AllocError, Global};
use std::marker::PhantomData;

// An element of a lent slice, which a state of the noise can give.
pub(crate) trait Element: Copy + PartialEq + Drop {
    fn from_state(state: u32) -> Self;
}

impl Element for u8 {
    fn from_state(state: u32) -> u8 {
        (state >> 24) as u8
    }
}

impl Element for u16 {
    fn from_state(state: u32) -> u16 {
        (state >> 16) as u16
    }
}

impl Element for u32 {
    fn from_state(state: u32) -> u32 {
        state
    }
}

// Both halves of a u64 are the state.
impl Element for u64 {
    fn from_state(state: u32) -> u64 {
        u64::from(state) * 4294967297
    }
}

// An element that a list can have as a number.
pub(crate) trait Listed: Element {
    // Gives the element of a number, and 0 where it has none.
    fn from_number(number: usize) -> Self;

    // Tests whether the element is that of a number.
    fn is_number(&self, number: usize) -> bool;
}

impl Listed for u8 {
    fn from_number(number: usize) -> u8 {
        narrow(number)
    }

    fn is_number(&self, number: usize) -> bool {
        usize::from(*self) == number
    }
}

impl Listed for u16 {
    fn from_number(number: usize) -> u16 {
        narrow(number)
    }

    fn is_number(&self, number: usize) -> bool {
        usize::from(*self) == number
    }
}

// The noise of a seed: an element for each state, without end. It holds the last state.
#[derive(Drop)]
struct Noise<T> {
    state: u32,
    elements: PhantomData<T>,
}

impl<T: Element> Noise<T> {
    fn new(seed: u32) -> Noise<T> {
        Noise {
            state: seed.wrapping_mul(2654435761),
            elements: PhantomData,
        }
    }
}

impl<T: Element> Iterator for Noise<T> {
    type Item = T;

    fn next(&mut self) -> Option<T> {
        self.state = self.state.wrapping_mul(1664525).wrapping_add(1013904223);
        Some(T::from_state(self.state))
    }
}

// Gives a slice a length, and fills it with the noise of a seed.
pub(crate) fn fill_noise<T: Element>(
    data: &mut Vec<T>,
    seed: u32,
    length: usize,
) -> Result<(), AllocError> {
    data.resize(length, T::from_state(0))?;
    for (element, made) in data.iter_mut().zip(Noise::new(seed)) {
        *element = made;
    }
    Ok(())
}

// Tests whether a slice holds the noise of a seed.
pub(crate) fn is_noise<T: Element>(data: &[T], seed: u32) -> bool {
    data.iter()
        .zip(Noise::new(seed))
        .all(|(held, made)| *held == made)
}

// What a slice holds: the numbers that a section of the list gives, or the noise of a seed.
#[derive(Clone, Copy)]
pub(crate) enum Content<'a> {
    Listed(&'a [usize]),
    Noise(u32),
}

impl<'a> Content<'a> {
    // Gives what a section stands for. One with no numbers stands for noise.
    pub(crate) fn of(section: &'a [usize], seed: u32) -> Content<'a> {
        if section.is_empty() {
            Content::Noise(seed)
        } else {
            Content::Listed(section)
        }
    }

    // Gives a slice a length, and fills it. It has zeros where its section ends before it.
    pub(crate) fn fill<T: Listed>(
        self,
        data: &mut Vec<T>,
        length: usize,
    ) -> Result<(), AllocError> {
        match self {
            Content::Noise(seed) => fill_noise(data, seed, length),
            Content::Listed(numbers) => {
                data.resize(length, T::from_number(0))?;
                for (index, element) in data.iter_mut().enumerate() {
                    let number = numbers.get(index).copied().unwrap_or_default();
                    *element = T::from_number(number);
                }
                Ok(())
            }
        }
    }

    // Tests whether a slice holds this. A listed one has to be as long.
    pub(crate) fn is<T: Listed>(self, data: &[T]) -> bool {
        match self {
            Content::Noise(seed) => is_noise(data, seed),
            Content::Listed(numbers) => {
                data.len() == numbers.len()
                    && data
                        .iter()
                        .zip(numbers)
                        .all(|(held, number)| held.is_number(*number))
            }
        }
    }
}

// What a call is lent: a source, two destinations, a byte workspace, a u64 workspace, a count buffer and a u32
// workspace. The cases of a list fill the same slices again, so that not each of them asks for memory.
#[derive(Drop)]
pub(crate) struct Lent {
    pub(crate) from: Vec<u8>,
    pub(crate) to: Vec<u8>,
    pub(crate) other: Vec<u8>,
    pub(crate) bytes: Vec<u8>,
    pub(crate) u64s: Vec<u64>,
    pub(crate) u16s: Vec<u16>,
    pub(crate) u32s: Vec<u32>,
}

impl Lent {
    pub(crate) fn new(alloc: Global) -> Lent {
        Lent {
            from: Vec::new(alloc),
            to: Vec::new(alloc),
            other: Vec::new(alloc),
            bytes: Vec::new(alloc),
            u64s: Vec::new(alloc),
            u16s: Vec::new(alloc),
            u32s: Vec::new(alloc),
        }
    }
}
