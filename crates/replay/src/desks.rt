// The calls on a desk: tick, number 512, route tick, 513, set-up, 514, and the centre button, 515.
use super::buffer::{Buffer, is_number};
use super::list::Stop;
use std::io::{self, Read};

// A call takes those of the six buffers that it has; set-up's words are lent as the sticks.
#[derive(Default, Drop)]
struct Lent {
    desk: Buffer,
    sticks: Buffer,
    image: Buffer,
    input: Buffer,
    route: Buffer,
    answer: Buffer,
}

impl Lent {
    fn read(&mut self, reader: &mut impl Read) -> io::Result<()> {
        self.desk.read(reader)?;
        self.sticks.read(reader)?;
        self.image.read(reader)?;
        self.input.read(reader)?;
        self.route.read(reader)?;
        self.answer.read(reader)
    }

    // The number that the call ends with; none where the list lends more of a buffer than there is.
    fn call(&mut self, n: u32) -> Option<u32> {
        let desk = self.desk.lent_mut()?;
        let sticks = self.sticks.lent()?;
        let image = self.image.lent_mut()?;
        let input = self.input.lent_mut()?;
        let route = self.route.lent()?;
        let answer = self.answer.lent_mut()?;
        Some(desk::desk_number(match n {
            512 => desk::tick(desk, sticks, image, input, answer),
            513 => desk::route_tick(desk, sticks, image, input, route, answer),
            514 => desk::setup(desk, sticks),
            _ => desk::centre(desk),
        }))
    }
}

// Stored: the six buffers; then the number, and the four that a call may change. All are read before a list is told to be cut.
pub(crate) fn is_same(reader: &mut impl Read, n: u32) -> Result<bool, Stop> {
    let mut lent = Lent::default();
    lent.read(reader)?;
    let number = lent.call(n);
    let number_is = is_number(reader, number)?;
    let desk_is = lent.desk.is_left(reader)?;
    let image_is = lent.image.is_left(reader)?;
    let input_is = lent.input.is_left(reader)?;
    let answer_is = lent.answer.is_left(reader)?;
    let (Some(number_is), Some(desk_is), Some(image_is), Some(input_is), Some(answer_is)) = (
        number_is, desk_is, image_is, input_is, answer_is,
    ) else {
        return Err(Stop::Cut);
    };
    Ok(number_is && desk_is && image_is && input_is && answer_is)
}
