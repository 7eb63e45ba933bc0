// Laws of what is built.
ghost use Rattle.sc_core.specs.declared.module.Core.{Core};
ghost use Rattle.sc_gen.specs.Limits.{IsObject, plain_code};
ghost use Rattle.sc_object.specs.declared.object.Object.{Object};
ghost use Rattle.sc_opt.specs.Fast.{fast_code};
ghost use Rattle.sc_build.specs.Alike.{AreAlike};

/// Both objects of a module have as many sections, the same ones behind the texts of its functions, and frames alike. So a module
/// that goes over to its other object finds its static objects and literals by their sections, and a block's line is that of either.
pub fn objects_are_alike()
    ensures { (core : Core) (plain fast : Object) → IsObject plain_code core plain → IsObject fast_code core fast → AreAlike core plain fast }
{}
