mod asks;
mod defined;
mod soundness;
mod statements;
mod users;
