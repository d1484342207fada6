// What a borrowed record's type says of it: how many elements each array has, and how large each number can be. Nothing is done.
ghost use Rattle.session.specs.Shape.{SessionShape};

use crate::Session;

pub fn session_shaped(session: &Session)
    ensures { SessionShape session.now }
{}
