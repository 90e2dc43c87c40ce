mod both_sizes;
mod model;
mod partners;
mod read_back;
mod registrations;
mod submits;
