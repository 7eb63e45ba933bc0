// Laws of the second compiler.
ghost use Rattle.sc_core.specs.declared.module.Fun.{Fun};
ghost use Rattle.sc_gen_code.specs.Styles.{IsStyle};
ghost use Rattle.sc_opt.specs.Kept.{fast_style};

/// A function keeps at most four copies, of objects that are within reach of `sp`. So the laws of `sc_gen_laws` on every style hold
/// of the code of the second compiler.
pub fn fast_styles_are_styles()
    ensures { (f : Fun) → IsStyle (fast_style f) }
{}
