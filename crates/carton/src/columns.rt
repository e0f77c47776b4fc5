// Every word of a file as each kind of number.
ghost use Rattle.std.specs.Prelude.{◌≡◌, length};

#[derive(Clone, Copy)]
pub struct Columns<'a> {
    pub floats: &'a [f64],
    pub ints: &'a [i64],
    pub bytes: &'a [u8],
    pub ghost ints_alike: { length ints.now ≡ length floats.now },
    pub ghost bytes_alike: { length bytes.now ≡ length floats.now },
}
