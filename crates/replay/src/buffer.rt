// A buffer that a call is lent. It is stored with more than the right length, so that a call can be lent too little or too much of it; what was not lent has to
// stay too.
use super::list::read_up_to;
use std::io::{self, Read};
use words::word_at;

// Stored where a call would be lent more of a buffer than there is, and so is none: no document has this number.
const NO_NUMBER: u32 = 99;

// A route is at most 33 legs and three words long, and nothing is longer.
const ROOM: usize = 2520;

// A blank one is filled in its place, since an answer of this size would be copied.
#[derive(Drop)]
pub(crate) struct Buffer {
    bytes: [u8; ROOM],
    stored: usize, // how many bytes of it are in the list
    lent: usize, // how many a call is lent
}

impl Default for Buffer {
    #[inline(always)]
    fn default() -> Buffer {
        Buffer {
            bytes: [0; ROOM],
            stored: 0,
            lent: 0,
        }
    }
}

impl Buffer {
    // The next of the list: how many words are stored, how many bytes are lent, and the words. Where more words are said to come than there is room for, none is
    // read. What a list has too few of counts as zeros: that it is cut is seen at what is stored last.
    pub(crate) fn read(&mut self, reader: &mut impl Read) -> io::Result<()> {
        let mut head = [0u8; 8];
        read_up_to(reader, &mut head)?;
        self.stored = 4 * word_at(&head, 0) as usize;
        self.lent = word_at(&head, 1) as usize;
        let stored = self.stored;
        if let Some(room) = self.bytes.get_mut(..stored) {
            read_up_to(reader, room)?;
        }
        Ok(())
    }

    pub(crate) fn lent(&self) -> Option<&[u8]> {
        self.bytes.get(..self.lent)
    }

    pub(crate) fn lent_mut(&mut self) -> Option<&mut [u8]> {
        let lent = self.lent;
        self.bytes.get_mut(..lent)
    }

    // Whether what is stored next is what a call left in it; none where the list is cut.
    pub(crate) fn is_left(&self, reader: &mut impl Read) -> io::Result<Option<bool>> {
        let mut left = [0u8; ROOM];
        let Some(room) = left.get_mut(..self.stored) else {
            return Ok(None);
        };
        if read_up_to(reader, room)? < self.stored {
            return Ok(None);
        }
        Ok(Some(self.bytes == left))
    }
}

// Whether the number that is stored next is a call's; none where the list is cut.
pub(crate) fn is_number(reader: &mut impl Read, number: Option<u32>) -> io::Result<Option<bool>> {
    let mut stored = [0u8; 4];
    if read_up_to(reader, &mut stored)? < 4 {
        return Ok(None);
    }
    Ok(Some(u32::from_le_bytes(stored) == number.unwrap_or(NO_NUMBER)))
}
