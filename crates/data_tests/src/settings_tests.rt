// Tests of `ra_settings`, `layered_settings` and `ra_config`, by their public calls: a setting of each kind, trees of TOML, which source
// goes before which, and the projects that a command discovers. Few functions own settings.
mod calls;
mod kinds;
mod layers;
mod projects;
mod trees;
