mod directories;
mod flags;
mod links;
mod made;
mod names;
mod sizes;
mod times;
