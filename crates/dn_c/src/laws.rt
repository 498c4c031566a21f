// Laws on what C holds, by functions with empty bodies.
ghost use Rattle.std.specs.Prelude.{◌≡◌, None, false};
ghost use Rattle.dn_c.specs.State.Works.{work_of};
ghost use Rattle.dn_c.specs.declared.handle.Handle.{Handle};

/// A handle whose flag is false, as that of `DNORM_NONE`, which is all zeros, holds nothing, whatever its pointer is.
pub fn zeros_hold_nothing()
    ensures { (handle : Handle) → handle.full ≡ false → work_of handle ≡ None }
{}
