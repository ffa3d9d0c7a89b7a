ghost use Rattle.std.specs.Prelude.{◌<◌};

// What is left of a cent, 0 to 99 ten-thousandths of a dollar.
#[derive(Clone, Copy)]
pub struct Rest {
    pub value: u8,
    ghost small: { value < 100 },
}
