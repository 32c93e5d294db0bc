// A row's byte of marks, read bit by bit.
ghost use Rattle.std.specs.Prelude.{◌≡◌, ◌≤◌};
ghost use Rattle.sets.specs.MarkBytes.{bit_of};

pub fn bit(mark: u8, weight: u8) -> bool
    requires { 1 ≤ weight }
    ensures { result ≡ bit_of mark weight }
{
    mark / weight % 2 == 1
}
