//! Typed values: texts, URIs, smart posters, handovers, links, and views.
mod comparing;
mod handovers;
mod judged_first;
mod links;
mod made;
mod most_records;
mod nested_memory;
mod texts;
mod typed_memory;
mod views;
