//! That fewer policies and profiles clash no more than all of them. The law is a contract; the function does nothing.
ghost use Rattle.fx_names.specs.Digests.{Digest};
ghost use Rattle.fx_scanner.specs.declared.inputs.Inputs.{Inputs};
ghost use Rattle.fx_scanner.specs.Apart.{IsApart, IsPartOf};

/// Inputs that are a part of others have names of their own where these have. It does nothing.
pub fn fewer_are_apart()
    ensures { (dg : Digest) (part whole : Inputs) → IsPartOf part whole → IsApart dg whole → IsApart dg part }
{}
