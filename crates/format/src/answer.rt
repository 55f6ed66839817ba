// What is printed. What each line stands for is said in `specs/Line.antt`.

// Running with the events taken and the residuals, failed with the place and the events taken, or
// refused with number and place.
#[derive(Clone, Copy)]
pub enum Line {
    Running { taken: u64, residuals: u64 },
    Failed { place: u64, taken: u64 },
    Refused { number: u8, place: u64 },
}
