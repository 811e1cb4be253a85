//! What holds of the JSON of each module.
ghost use Rattle.starlark_json.specs.Parsed.{EachModuleIsReadBack};

/// The JSON of the module of a text of less than 2^32 bytes determines the file's name, the comments and the tree.
pub fn each_module_is_read_back()
    ensures { EachModuleIsReadBack }
{}
