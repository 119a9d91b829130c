// Laws of the definition of assembling, each the contract of a function that does nothing.
ghost use Rattle.rv_asm.specs.Assembling.{OneImage};

/// A text has one image at most in a window.
pub fn one_image()
    ensures { OneImage }
{}
